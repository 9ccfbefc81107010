//! Points of the deck of the script: what they break first, and their objectives. The expected answers were worked
//! out by hand.

ghost use Rattle.std.specs.Prelude.{◌≡◌, ◌↔◌, All, IsTrue, length};
ghost use Rattle.um_model.specs.Values.{plain_point};
ghost use Rattle.um_point.specs.SmallPoints.{FitsIn36Bits, FitsMachine};

use crate::script::deck_of;
use std::test::Fail;
use um_deck::Deck;
use um_num::List;
use um_point::{Broken, Point, feasible, objective};

/// A denominator, the parts of x, y, w, q and v, what the point breaks first, and its objective's numerator and
/// denominator: it is -1.5x - 0.75q^2 + 0.25, as the deck maximises.
type Case = (i128, &'static [i128], Option<Broken>, i128, i128);

const CASES: &[Case] = &[
    (1, &[0, 2, 1, 3, -9], None, -13, 2),
    (2, &[3, 0, 0, 1, 0], None, -35, 16),
    (1, &[2, 2, 0, 0, 0], Some(Broken::Row(0)), -11, 4),
    (1, &[0, 0, 2, 0, 0], Some(Broken::Bound(2)), 1, 4),
    (2, &[0, 1, 0, 0, 0], Some(Broken::Integer(1)), 1, 4),
    (1, &[1, 0, 1, 0, 0], Some(Broken::Set(0)), -5, 4),
];

/// All numbers of a point are below this in size.
const LIMIT: i128 = 1 << 36;

fn is_small(number: &i128) -> bool
    ensures { IsTrue result ↔ FitsIn36Bits number.now }
{
    -LIMIT < *number && *number < LIMIT
}

fn are_small(parts: &[i128]) -> bool
    ensures { IsTrue result ↔ All FitsIn36Bits parts.now }
{
    for part in parts {
        if !is_small(part) {
            return false;
        }
    }
    true
}

/// Whether the calls may be made at the point.
fn is_small_point(deck: &Deck, point: &Point) -> bool
    ensures { IsTrue result → FitsMachine deck.now (plain_point point.now) }
{
    1 <= point.den
        && is_small(&point.den)
        && point.parts.len() == deck.columns().len()
        && are_small(point.parts.as_slice())
}

#[test]
fn points(rt: HostRuntime) -> Result<(), Fail> {
    let deck = deck_of(rt.alloc()).expect(&rt, "a deck");
    for (den, parts, broken, num, over) in CASES {
        let parts = List::from_slice(rt.alloc(), parts)?;
        let point = Point { den: *den, parts };
        assert!(rt; is_small_point(&deck, &point));
        assert!(rt; feasible(&deck, &point) == *broken, "{broken:?}");
        let value = objective(&deck, &point);
        assert!(rt; value.num() == *num && value.den() == *over, "{num}");
    }
    Ok(())
}
