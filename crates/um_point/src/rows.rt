//! Rows of a deck at a point.

ghost use Rattle.std.specs.Prelude.{◌≡◌, ◌<◌, ◌*ℤ◌, length, IsTrue, ◌↔◌};
ghost use Rattle.um_model.specs.Values.{plain_point};
ghost use Rattle.um_model.specs.Feasible.{row_times, RowHolds};
ghost use Rattle.um_point.specs.Places.{HoldsAt};
ghost use Rattle.um_point.specs.SmallPoints.{FitsIn36Bits, FitsMachine};

use crate::quotient::Quotient;
use um_deck::Deck;
use um_model::Point;

/// A row's value, from its sum.
fn row_value(point: &Point, sum: &i128) -> Quotient
    requires { FitsIn36Bits point.now.den }
    ensures num { result.num ≡ sum.now }
    ensures den { result.den ≡ point.now.den *ℤ point.now.den }
{
    Quotient {
        num: *sum,
        den: point.den * point.den,
    }
}

/// Whether the row's value lies between its sides; `sum` is its sum times the square of the denominator.
pub fn row_holds(deck: &Deck, point: &Point, row: u32, sum: &i128) -> bool
    requires inside { row < length deck.now.rows }
    requires small { FitsMachine deck.now (plain_point point.now) }
    requires sum { sum.now ≡ row_times deck.now (plain_point point.now) row }
    ensures { IsTrue result ↔ HoldsAt (RowHolds deck.now (plain_point point.now)) deck.now.rows row }
{
    deck.known();
    let sides = &deck.rows()[row as usize];
    row_value(point, sum).is_between(sides.low, sides.high)
}
