//! The first part of a deck that a point breaks.

ghost use Rattle.std.specs.Prelude.{◌≡◌, ◌≤◌, length, IsNone, IfSome, ◌↔◌};
ghost use Rattle.um_model.specs.Values.{plain_point};
ghost use Rattle.um_model.specs.Feasible.{AllPlaces, RowHolds, EndsHold, IntegerHolds, SemiHolds, SetHolds, Feasible};
ghost use Rattle.um_model.specs.FirstBroken.{IsFirstFailure, IsFirstBroken};
ghost use Rattle.um_model.specs.declared.limits.TheConstants.{MOST_ROWS};
ghost use Rattle.um_point.specs.SmallPoints.{FitsMachine};

use crate::columns::{ends_hold, integer_holds, semi_holds};
use crate::row_sums::row_sums;
use crate::rows::row_holds;
use crate::sets::set_holds;
use um_deck::Deck;
use um_model::{Broken, Point};

fn row_count(deck: &Deck) -> u32
    ensures count { result ≡ length deck.now.rows }
    ensures few { result ≤ MOST_ROWS }
{
    deck.known();
    deck.rows().len() as u32
}

fn column_count(deck: &Deck) -> u32
    ensures { result ≡ length deck.now.columns }
{
    deck.known();
    deck.columns().len() as u32
}

fn set_count(deck: &Deck) -> u32
    ensures { result ≡ length deck.now.sets }
{
    deck.known();
    deck.sets().len() as u32
}

fn first_broken_row(deck: &Deck, point: &Point) -> Option<u32>
    requires { FitsMachine deck.now (plain_point point.now) }
    ensures none { IsNone result ↔ AllPlaces (RowHolds deck.now (plain_point point.now)) deck.now.rows }
    ensures first { IfSome result (IsFirstFailure (RowHolds deck.now (plain_point point.now)) deck.now.rows) }
{
    let sums = row_sums(deck, point);
    for row in 0..row_count(deck) {
        if !row_holds(deck, point, row, &sums[row as usize]) {
            return Some(row);
        }
    }
    None
}

fn first_broken_bound(deck: &Deck, point: &Point) -> Option<u32>
    requires { FitsMachine deck.now (plain_point point.now) }
    ensures none { IsNone result ↔ AllPlaces (EndsHold (plain_point point.now)) deck.now.columns }
    ensures first { IfSome result (IsFirstFailure (EndsHold (plain_point point.now)) deck.now.columns) }
{
    for column in 0..column_count(deck) {
        if !ends_hold(deck, point, column) {
            return Some(column);
        }
    }
    None
}

fn first_broken_integer(deck: &Deck, point: &Point) -> Option<u32>
    requires { FitsMachine deck.now (plain_point point.now) }
    ensures none { IsNone result ↔ AllPlaces (IntegerHolds (plain_point point.now)) deck.now.columns }
    ensures first { IfSome result (IsFirstFailure (IntegerHolds (plain_point point.now)) deck.now.columns) }
{
    for column in 0..column_count(deck) {
        if !integer_holds(deck, point, column) {
            return Some(column);
        }
    }
    None
}

fn first_broken_semi(deck: &Deck, point: &Point) -> Option<u32>
    requires { FitsMachine deck.now (plain_point point.now) }
    ensures none { IsNone result ↔ AllPlaces (SemiHolds (plain_point point.now)) deck.now.columns }
    ensures first { IfSome result (IsFirstFailure (SemiHolds (plain_point point.now)) deck.now.columns) }
{
    for column in 0..column_count(deck) {
        if !semi_holds(deck, point, column) {
            return Some(column);
        }
    }
    None
}

fn first_broken_set(deck: &Deck, point: &Point) -> Option<u32>
    requires { FitsMachine deck.now (plain_point point.now) }
    ensures none { IsNone result ↔ AllPlaces (SetHolds (plain_point point.now)) deck.now.sets }
    ensures first { IfSome result (IsFirstFailure (SetHolds (plain_point point.now)) deck.now.sets) }
{
    for set in 0..set_count(deck) {
        if !set_holds(deck, point, set) {
            return Some(set);
        }
    }
    None
}

/// The first part of the deck that the point breaks, in the order rows, ends, integer columns,
/// semicontinuous columns and sets. The point satisfies the deck where there is none.
pub fn feasible(deck: &Deck, point: &Point) -> Option<Broken>
    requires { FitsMachine deck.now (plain_point point.now) }
    ensures feasible { IsNone result ↔ Feasible deck.now (plain_point point.now) }
    ensures first { IfSome result (IsFirstBroken deck.now (plain_point point.now)) }
{
    if let Some(row) = first_broken_row(deck, point) {
        return Some(Broken::Row(row));
    }
    if let Some(column) = first_broken_bound(deck, point) {
        return Some(Broken::Bound(column));
    }
    if let Some(column) = first_broken_integer(deck, point) {
        return Some(Broken::Integer(column));
    }
    if let Some(column) = first_broken_semi(deck, point) {
        return Some(Broken::Semi(column));
    }
    if let Some(set) = first_broken_set(deck, point) {
        return Some(Broken::Set(set));
    }
    None
}
