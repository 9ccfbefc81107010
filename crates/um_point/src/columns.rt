//! Columns of a deck at a point.

ghost use Rattle.std.specs.Prelude.{◌≡◌, ◌<◌, ◌*ℤ◌, ◌≤ℤ◌, pos, ℤ, ◌⊎◌, length, get_or, IsTrue, ◌↔◌};
ghost use Rattle.std.specs.Option.{ForSome};
ghost use Rattle.um_model.specs.Values.{plain_point};
ghost use Rattle.um_model.specs.Feasible.{part, EndsHold, IntegerHolds, SemiHolds};
ghost use Rattle.um_point.specs.Places.{HoldsAt};
ghost use Rattle.um_point.specs.SmallPoints.{FitsMachine};

use crate::quotient::Quotient;
use um_deck::Deck;
use um_model::{Kind, Point};

/// A column's value.
fn column_value(deck: &Deck, point: &Point, column: u32) -> Quotient
    requires inside { column < length deck.now.columns }
    requires small { FitsMachine deck.now (plain_point point.now) }
    ensures num { result.num ≡ part (plain_point point.now).parts column }
    ensures den { result.den ≡ point.now.den }
{
    Quotient {
        num: point.parts.as_slice()[column as usize],
        den: point.den,
    }
}

/// A column's value in thousandths.
fn column_thousandths(deck: &Deck, point: &Point, column: u32) -> Quotient
    requires inside { column < length deck.now.columns }
    requires small { FitsMachine deck.now (plain_point point.now) }
    ensures num { result.num ≡ pos 1000 *ℤ part (plain_point point.now).parts column }
    ensures den { result.den ≡ point.now.den }
{
    Quotient {
        num: 1000 * point.parts.as_slice()[column as usize],
        den: point.den,
    }
}

/// Whether the column's value lies between its ends.
pub fn ends_hold(deck: &Deck, point: &Point, column: u32) -> bool
    requires inside { column < length deck.now.columns }
    requires small { FitsMachine deck.now (plain_point point.now) }
    ensures { IsTrue result ↔ HoldsAt (EndsHold (plain_point point.now)) deck.now.columns column }
{
    deck.known();
    let ends = &deck.columns()[column as usize];
    column_thousandths(deck, point, column).is_between(ends.low, ends.high)
}

/// Whether the column's value is whole, where it is to be.
pub fn integer_holds(deck: &Deck, point: &Point, column: u32) -> bool
    requires inside { column < length deck.now.columns }
    requires small { FitsMachine deck.now (plain_point point.now) }
    ensures { IsTrue result ↔ HoldsAt (IntegerHolds (plain_point point.now)) deck.now.columns column }
{
    let rules = &deck.columns()[column as usize];
    match rules.kind {
        Kind::Integer => column_value(deck, point, column).is_whole(),
        Kind::Continuous => true,
        Kind::Semi(_) => true,
    }
}

/// Whether the column's value is 0 or at least its threshold, where it has one.
pub fn semi_holds(deck: &Deck, point: &Point, column: u32) -> bool
    requires inside { column < length deck.now.columns }
    requires small { FitsMachine deck.now (plain_point point.now) }
    ensures { IsTrue result ↔ HoldsAt (SemiHolds (plain_point point.now)) deck.now.columns column }
{
    deck.known();
    let rules = &deck.columns()[column as usize];
    match rules.kind {
        Kind::Semi(threshold) => column_thousandths(deck, point, column).is_zero_or_from(threshold),
        Kind::Continuous => true,
        Kind::Integer => true,
    }
}
