//! The objective of a point.

ghost use Rattle.std.specs.Prelude.{◌≡◌, ◌≤◌, ◌^◌, ◌≤ℤ◌, ◌*ℤ◌, pos, None};
ghost use Rattle.um_num.specs.Numbers.{IsInRange};
ghost use Rattle.um_model.specs.Values.{plain_point};
ghost use Rattle.um_model.specs.WellFormed.{IsWithin};
ghost use Rattle.um_model.specs.Feasible.{square_sum};
ghost use Rattle.um_model.specs.Objective.{objective, cost_sum, objective_times, objective_over};
ghost use Rattle.um_point.specs.SmallPoints.{FitsMachine};

use crate::sums::{cost_sum, square_sum, times_square};
use um_deck::Deck;
use um_model::Point;
use um_num::{Frac, power_of_ten};

/// The objective of a point, as kept for minimising. It need not satisfy the deck.
pub fn objective(deck: &Deck, point: &Point) -> Frac
    requires { FitsMachine deck.now (plain_point point.now) }
    ensures { result ≡ objective deck.now (plain_point point.now) }
{
    Frac::new(numerator(deck, point), denominator(deck, point))
}

/// The objective times its denominator.
fn numerator(deck: &Deck, point: &Point) -> i128
    requires { FitsMachine deck.now (plain_point point.now) }
    ensures value { result ≡ objective_times deck.now (plain_point point.now) }
    ensures range { IsInRange result }
{
    costs(deck, point) + squares(deck, point) + constant(deck, point)
}

fn denominator(deck: &Deck, point: &Point) -> i128
    requires { FitsMachine deck.now (plain_point point.now) }
    ensures value { result ≡ objective_over deck.now (plain_point point.now) }
    ensures positive { pos 1 ≤ℤ result }
    ensures range { IsInRange result }
{
    deck.known();
    point.den * point.den * power_of_ten(deck.scale())
}

/// What the costs add to the numerator.
fn costs(deck: &Deck, point: &Point) -> i128
    requires { FitsMachine deck.now (plain_point point.now) }
    ensures value { result ≡ point.now.den *ℤ cost_sum deck.now (plain_point point.now).parts }
    ensures size { IsWithin (2 ^ 115) result }
{
    deck.known();
    point.den * cost_sum(deck.columns(), point.parts.as_slice())
}

/// What the arcs add to the numerator.
fn squares(deck: &Deck, point: &Point) -> i128
    requires { FitsMachine deck.now (plain_point point.now) }
    ensures value { result ≡ square_sum deck.now None (plain_point point.now).parts }
    ensures size { IsWithin (2 ^ 118) result }
{
    deck.known();
    square_sum(deck.arcs(), point.parts.as_slice())
}

/// What the constant adds to the numerator.
fn constant(deck: &Deck, point: &Point) -> i128
    requires { FitsMachine deck.now (plain_point point.now) }
    ensures value { result ≡ deck.now.constant *ℤ (point.now.den *ℤ point.now.den) }
    ensures size { IsWithin (2 ^ 125) result }
{
    deck.known();
    times_square(deck.constant(), &point.den)
}
