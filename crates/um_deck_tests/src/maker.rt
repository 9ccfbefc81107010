//! The maker, which goes on behind statements that it refuses.
//!
//! The faults and the text are those of another program, of the same rules.

use crate::script::{SCRIPT, deck_of, tell};
use std::test::Fail;
use um_make::print;
use um_maker::DeckMaker;

/// The normal text of the deck of the accepted statements, and of the first entry of the column whose second is refused.
const TEXT: &[u8] =
    b"NAME d\nOBJSENSE MAX\nROWS\n N z\n G r\nCOLUMNS\n x z 1.5\n x r 2\n M 'MARKER' 'INTORG'\n y r 0.5\n M 'MARKER' 'INTEND'\n w z 0\n q z 0\n v z 0\nRHS\n RHS r -4\n RHS z 0.25\nRANGES\n RNG r 7\nBOUNDS\n LO BND x 0\n UP BND x 4\n LO BND y 0\n UP BND y 2\n LO BND w 0\n UP BND w 1\n LO BND q 0\n UP BND q 3\n FR BND v\nSOS\n S1 s\n w 0.5\n x 1\nARCS\n Q z q 0.75\nENDATA\n";

#[test]
fn refused_statements(rt: HostRuntime) -> Result<(), Fail> {
    let mut maker = DeckMaker::new(rt.alloc());
    for (place, (statement, want)) in SCRIPT.iter().enumerate() {
        let told = tell(&mut maker, statement);
        assert!(rt; told.err() == *want, "statement {place}");
    }
    Ok(())
}

#[test]
fn deck_of_the_accepted_statements(rt: HostRuntime) -> Result<(), Fail> {
    let deck = deck_of(rt.alloc()).expect(&rt, "a deck");
    let text = print(rt.alloc(), &deck)?;
    assert_eq!(rt; text.as_slice(), TEXT);
    Ok(())
}
