//! The branch that a point asks for.

ghost use Rattle.std.specs.Prelude.{◌≡◌, length, IsNone, IfSome, ◌↔◌};
ghost use Rattle.um_model.specs.Values.{plain_point};
ghost use Rattle.um_model.specs.Feasible.{AllPlaces, IntegerHolds, SemiHolds, SetHolds};
ghost use Rattle.um_model.specs.FirstBroken.{IsFirstFailure};
ghost use Rattle.um_point.specs.SmallPoints.{FitsMachine};
ghost use Rattle.um_split.specs.Branchings.{IsBranchOf, IsFirstSplit, AsksForNone};
ghost use Rattle.um_split.specs.Intervals.{KeepsIntervals};

use crate::columns::{floor_at, semi_holds};
use crate::splitting::split;
use um_box::NodeBox;
use um_deck::Deck;
use um_model::{Branch, Point};

/// The branch that a point of a box asks for: on the first integer column whose value is not whole, at the
/// floor of that value; else on the first semicontinuous column that is neither 0 nor at least its threshold;
/// else on the first set whose rule fails, at its average split. `None` exactly where no such rule is broken.
/// The members of each set are to be at least 0 at the point, and 0 outside the set's interval of the box.
pub fn branch_of(deck: &Deck, node: &NodeBox<'_>, point: &Point) -> Option<Branch>
    requires deck { node.now.deck ≡ deck.now }
    requires small { FitsMachine deck.now (plain_point point.now) }
    requires intervals { KeepsIntervals deck.now node.now.limits (plain_point point.now) }
    ensures none { IsNone result ↔ AsksForNone deck.now (plain_point point.now) }
    ensures branch { IfSome result (IsBranchOf deck.now (plain_point point.now)) }
{
    if let Some(branch) = broken_integer(deck, point) {
        return Some(branch);
    }
    if let Some(column) = broken_semi(deck, point) {
        return Some(Branch::Semi { column });
    }
    broken_set(deck, node, point)
}

fn column_count(deck: &Deck) -> u32
    ensures { result ≡ length deck.now.columns }
{
    deck.known();
    deck.columns().len() as u32
}

fn set_count(deck: &Deck) -> u32
    ensures { result ≡ length deck.now.sets }
{
    deck.known();
    deck.sets().len() as u32
}

/// The branch on the first integer column whose value is not whole, at the floor of that value.
fn broken_integer(deck: &Deck, point: &Point) -> Option<Branch>
    requires { FitsMachine deck.now (plain_point point.now) }
    ensures none { IsNone result ↔ AllPlaces (IntegerHolds (plain_point point.now)) deck.now.columns }
    ensures branch { IfSome result (IsBranchOf deck.now (plain_point point.now)) }
{
    for column in 0..column_count(deck) {
        if let Some(below) = floor_at(deck, point, column) {
            return Some(Branch::Int { column, below });
        }
    }
    None
}

/// The first semicontinuous column that is neither 0 nor at least its threshold.
fn broken_semi(deck: &Deck, point: &Point) -> Option<u32>
    requires { FitsMachine deck.now (plain_point point.now) }
    ensures none { IsNone result ↔ AllPlaces (SemiHolds (plain_point point.now)) deck.now.columns }
    ensures first { IfSome result (IsFirstFailure (SemiHolds (plain_point point.now)) deck.now.columns) }
{
    for column in 0..column_count(deck) {
        if !semi_holds(deck, point, column) {
            return Some(column);
        }
    }
    None
}

/// The average split of the first set whose rule fails.
fn broken_set(deck: &Deck, node: &NodeBox<'_>, point: &Point) -> Option<Branch>
    requires deck { node.now.deck ≡ deck.now }
    requires small { FitsMachine deck.now (plain_point point.now) }
    requires intervals { KeepsIntervals deck.now node.now.limits (plain_point point.now) }
    ensures none { IsNone result ↔ AllPlaces (SetHolds (plain_point point.now)) deck.now.sets }
    ensures branch { IfSome result (IsFirstSplit deck.now (plain_point point.now)) }
{
    for set in 0..set_count(deck) {
        if let Some(cut) = split(deck, set, node, point) {
            return Some(cut);
        }
    }
    None
}
