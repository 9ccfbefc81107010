//! Texts that are written, and lines and words that are read.

use std::test::Fail;
use um_num::Frac;
use um_text::{Text, lines_of, words_of, write_whole};

#[test]
fn written_texts(rt: HostRuntime) -> Result<(), Fail> {
    let mut text = Text::new(rt.alloc());
    text.line(b"rows", &[b"3", b"x"])?;
    text.put(b"y")?;
    text.whole_word(-7)?;
    text.count_word(8)?;
    text.put(b" ")?;
    text.fraction(&Frac::new(-2, 4))?;
    text.put(b" ")?;
    text.fraction_or_none(None)?;
    text.end_line()?;
    let bytes = text.into_bytes();
    assert!(rt; bytes.as_slice() == b"rows 3 x\ny -7 8 -1/2 none\n".as_slice());
    let greatest = write_whole(rt.alloc(), i128::MAX)?;
    assert!(rt; greatest.as_slice() == b"170141183460469231731687303715884105727".as_slice());
    Ok(())
}

#[test]
fn lines_and_words(rt: HostRuntime) -> Result<(), Fail> {
    let mut lines = lines_of(b"a\r\r\n\r\n row\tcost 1.5");
    assert!(rt; lines.next() == Some(b"a\r".as_slice()));
    assert!(rt; lines.next() == Some(b"".as_slice()));
    let last = lines.next().unwrap_or(b"");
    assert!(rt; lines.next().is_none());
    let words = words_of(rt.alloc(), last)?;
    assert_eq!(rt; words.len(), 3);
    assert!(rt; words.get(1) == Some(b"cost".as_slice()));
    Ok(())
}
