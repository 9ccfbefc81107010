//! An answer's point: its numbers, whether it is feasible, and its objective.

ghost use Rattle.std.specs.Prelude.{◌≡◌, ◌<◌, All, IfSome, IsTrue, ◌↔◌, unsigned_abs};
ghost use Rattle.um_model.specs.Accepted.{IsSmallPoint, NumbersSmall, PointFeasible, ObjectiveHolds};
ghost use Rattle.um_model.specs.AnswerValues.{plain_answer};
ghost use Rattle.um_model.specs.Checkable.{IsCheckable};
ghost use Rattle.um_model.specs.Values.{plain_point};

use crate::bound::is_same;
use um_deck::Deck;
use um_model::limits::{POINT_SIZE, RAY_SIZE};
use um_model::{Answer, Point};
use um_point::{feasible, objective};

/// Whether the numbers of the point and of the ray are small enough to be checked.
pub fn are_numbers_small(answer: &Answer) -> bool
    ensures { IsTrue result ↔ NumbersSmall (plain_answer answer.now) }
{
    is_point_small(answer) && is_ray_small(answer)
}

fn is_point_small(answer: &Answer) -> bool
    ensures { IsTrue result ↔ IfSome (plain_answer answer.now).point IsSmallPoint }
{
    match &answer.point {
        Some(point) => is_small(point),
        None => true,
    }
}

fn is_ray_small(answer: &Answer) -> bool
    ensures { IsTrue result ↔ IfSome (plain_answer answer.now).ray (All (λ x. unsigned_abs x < RAY_SIZE)) }
{
    match &answer.ray {
        Some(ray) => are_below_ray(ray.as_slice()),
        None => true,
    }
}

fn is_small(point: &Point) -> bool
    ensures { IsTrue result ↔ IsSmallPoint (plain_point point.now) }
{
    point.den.unsigned_abs() < POINT_SIZE && are_small(point.parts.as_slice())
}

fn are_small(parts: &[i128]) -> bool
    ensures { IsTrue result ↔ All (λ x. unsigned_abs x < POINT_SIZE) parts.now }
{
    for part in parts {
        if part.unsigned_abs() >= POINT_SIZE {
            return false;
        }
    }
    true
}

fn are_below_ray(parts: &[i128]) -> bool
    ensures { IsTrue result ↔ All (λ x. unsigned_abs x < RAY_SIZE) parts.now }
{
    for part in parts {
        if part.unsigned_abs() >= RAY_SIZE {
            return false;
        }
    }
    true
}

/// Whether the point, if there is one, satisfies the deck.
pub fn is_point_feasible(deck: &Deck, answer: &Answer) -> bool
    requires checkable { IsCheckable deck.now (plain_answer answer.now) }
    requires small { NumbersSmall (plain_answer answer.now) }
    ensures { IsTrue result ↔ PointFeasible deck.now (plain_answer answer.now) }
{
    match &answer.point {
        Some(point) => feasible(deck, point).is_none(),
        None => true,
    }
}

/// Whether an objective that is stated beside a point is the point's.
pub fn has_objective(deck: &Deck, answer: &Answer) -> bool
    requires checkable { IsCheckable deck.now (plain_answer answer.now) }
    requires small { NumbersSmall (plain_answer answer.now) }
    ensures { IsTrue result ↔ ObjectiveHolds deck.now (plain_answer answer.now) }
{
    match (&answer.point, &answer.objective) {
        (Some(point), Some(stated)) => is_same(&objective(deck, point), stated),
        _ => true,
    }
}
