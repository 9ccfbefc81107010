//! Columns of a deck at a point: where a value that is to be whole is not, and where a threshold is kept.

ghost use Rattle.std.specs.Prelude.{◌≡◌, ◌<◌, ◌*ℤ◌, ◌≤ℤ◌, ◌⊎◌, pos, length, IsNone, IfSome, IsTrue, ◌↔◌};
ghost use Rattle.um_model.specs.Values.{plain_point};
ghost use Rattle.um_model.specs.WellFormed.{IsWithin};
ghost use Rattle.um_model.specs.Feasible.{part, IntegerHolds, SemiHolds, IsMultipleOf};
ghost use Rattle.um_model.specs.declared.limits.TheConstants.{MOST_END};
ghost use Rattle.um_point.specs.Places.{HoldsAt};
ghost use Rattle.um_point.specs.SmallPoints.{FitsIn36Bits, FitsMachine};
ghost use Rattle.um_split.specs.Branchings.{IsFloor};

use um_deck::Deck;
use um_model::{Kind, Point};
use um_num::floor_div;

/// The floor of the column's value, where that is to be whole and is not.
pub(crate) fn floor_at(deck: &Deck, point: &Point, column: u32) -> Option<i64>
    requires inside { column < length deck.now.columns }
    requires small { FitsMachine deck.now (plain_point point.now) }
    ensures whole { IsNone result ↔ HoldsAt (IntegerHolds (plain_point point.now)) deck.now.columns column }
    ensures floor { IfSome result (IsFloor point.now.den (part (plain_point point.now).parts column)) }
{
    let rules = &deck.columns()[column as usize];
    match rules.kind {
        Kind::Integer => broken_floor(point.parts.as_slice()[column as usize], point.den),
        Kind::Continuous => None,
        Kind::Semi(_) => None,
    }
}

/// The floor of a value that is not whole.
fn broken_floor(part: i128, den: i128) -> Option<i64>
    requires den { pos 1 ≤ℤ den }
    requires den_size { FitsIn36Bits den }
    requires part_size { FitsIn36Bits part }
    ensures whole { IsNone result ↔ IsMultipleOf den part }
    ensures floor { IfSome result (IsFloor den part) }
{
    let below = floor_div(part, den);
    if below * den == part {
        None
    } else {
        Some(below as i64)
    }
}

/// Whether the column's value is 0 or at least its threshold, where it has one.
pub(crate) fn semi_holds(deck: &Deck, point: &Point, column: u32) -> bool
    requires inside { column < length deck.now.columns }
    requires small { FitsMachine deck.now (plain_point point.now) }
    ensures { IsTrue result ↔ HoldsAt (SemiHolds (plain_point point.now)) deck.now.columns column }
{
    deck.known();
    let rules = &deck.columns()[column as usize];
    match rules.kind {
        Kind::Semi(threshold) => {
            is_zero_or_from(
                point.parts.as_slice()[column as usize],
                point.den,
                threshold,
            )
        }
        Kind::Continuous => true,
        Kind::Integer => true,
    }
}

/// Whether a value is 0 or at least the threshold, which is in thousandths.
fn is_zero_or_from(part: i128, den: i128, threshold: i64) -> bool
    requires den_size { FitsIn36Bits den }
    requires part_size { FitsIn36Bits part }
    requires threshold { IsWithin MOST_END threshold }
    ensures { IsTrue result ↔ ((part ≡ pos 0) ⊎ ((threshold *ℤ den) ≤ℤ (pos 1000 *ℤ part))) }
{
    part == 0 || times(threshold, den) <= thousandths(part)
}

fn times(threshold: i64, den: i128) -> i128
    requires threshold { IsWithin MOST_END threshold }
    requires den { FitsIn36Bits den }
    ensures { result ≡ threshold *ℤ den }
{
    i128::from(threshold) * den
}

fn thousandths(part: i128) -> i128
    requires { FitsIn36Bits part }
    ensures { result ≡ pos 1000 *ℤ part }
{
    1000 * part
}
