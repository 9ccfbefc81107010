//! The scale and the sides of a row.

ghost use Rattle.std.specs.Prelude.{◌≡◌, ◌≤◌, MatchOption, IfSome, unsigned_abs, true, false, is_some, option_map, Some, ◌||◌};
ghost use Rattle.um_model.specs.WellFormed.{IsWithin};
ghost use Rattle.um_statements.specs.Made.{low_side, high_side, side_at, numbers_beside, nothing};
ghost use Rattle.um_statements.specs.Scaled.{least_scale};
ghost use Rattle.um_statements.specs.DeckRules.{is_above};
ghost use Rattle.um_statements.specs.CallRules.{is_n};
ghost use Rattle.um_statements.specs.WellSaid.{IsRowSaid};
ghost use Rattle.um_made.specs.Views.{row_said};
ghost use Rattle.um_made.specs.RowWords.{AreSides, IsSide, has_large_side, range_taken};
ghost use Rattle.um_model.specs.declared.limits.TheConstants.{MOST_SCALE};

use crate::RowPart;
use crate::scaled::{decimals, scaled_within};
use um_model::limits::{MOST_RANGE, MOST_SIDE};
use um_num::{Decimal, Name};
use um_statements::RowKind;

/// Of what is not told.
const NOTHING: Decimal = Decimal {
    digits: 0,
    power: 0,
};

/// A row's right-hand side and its two sides, scaled. `None` where there is no such side.
#[derive(Clone, Copy, PartialEq, Eq, Debug)]
pub struct Sides {
    pub side: i64,
    pub low: Option<i64>,
    pub high: Option<i64>,
}

/// The least scale of what stands beside the row's coefficients and arcs.
pub fn scale_beside(row: &(Name, RowPart)) -> u32
    ensures { result ≡ least_scale (numbers_beside (row_said row.now)) }
{
    let side = decimals(&row.1.side.unwrap_or(NOTHING));
    match row.1.kind {
        RowKind::N => side,
        _ => side.max(decimals(&row.1.range.unwrap_or(NOTHING))),
    }
}

/// The sides of a row; `None` where one is too large.
pub fn sides_of(row: &(Name, RowPart), scale: u32) -> Option<Sides>
    requires numbers { IsRowSaid (row_said row.now) }
    requires scale { scale ≤ MOST_SCALE }
    requires whole { least_scale (numbers_beside (row_said row.now)) ≤ scale }
    ensures { MatchOption result (has_large_side (row_said row.now) scale ≡ true) (λ s. (has_large_side (row_said row.now) scale ≡ false) × AreSides (row_said row.now) scale s) }
{
    let side = match side_of(row, scale) {
        Some(side) => side,
        None => return None,
    };
    let range = match range_of(row, scale) {
        Some(range) => range,
        None => return None,
    };
    let sides = Sides {
        side,
        low: low_side(row.1.kind, side, range),
        high: high_side(row.1.kind, side, range),
    };
    if are_above(sides.low, sides.high) {
        return None;
    }
    Some(sides)
}

/// The right-hand side, scaled; `None` where it is too large.
fn side_of(row: &(Name, RowPart), scale: u32) -> Option<i64>
    requires numbers { IsRowSaid (row_said row.now) }
    requires scale { scale ≤ MOST_SCALE }
    requires whole { least_scale (numbers_beside (row_said row.now)) ≤ scale }
    ensures { MatchOption result (is_above MOST_SIDE (Some (side_at (row_said row.now) scale)) ≡ true) (IsSide (row_said row.now) scale) }
{
    let side = row.1.side.unwrap_or(NOTHING);
    scaled_within(MOST_SIDE, scale, &side)
}

/// Whether one of these sides is too large.
fn are_above(low: Option<i64>, high: Option<i64>) -> bool
    ensures { result ≡ (is_above MOST_SIDE low || is_above MOST_SIDE high) }
{
    is_above(MOST_SIDE, low) || is_above(MOST_SIDE, high)
}

/// The range of a row that is not N, scaled; `None` where it is so large that a side is too large.
fn range_of(row: &(Name, RowPart), scale: u32) -> Option<Option<i64>>
    requires numbers { IsRowSaid (row_said row.now) }
    requires scale { scale ≤ MOST_SCALE }
    requires whole { least_scale (numbers_beside (row_said row.now)) ≤ scale }
    ensures { MatchOption result (is_above MOST_RANGE (range_taken (row_said row.now) scale) ≡ true) (λ r. (r ≡ range_taken (row_said row.now) scale) × IfSome r (IsWithin MOST_RANGE)) }
{
    if is_n(row.1.kind) {
        return Some(None);
    }
    let Some(range) = row.1.range else {
        return Some(None);
    };
    let scaled = scaled_within(MOST_RANGE, scale, &range)?;
    Some(Some(scaled))
}

/// Whether the row takes no part but as the objective or a reference row.
pub fn is_n(kind: RowKind) -> bool
    ensures { result ≡ is_n kind }
{
    matches!(kind, RowKind::N)
}

/// The low side of a right-hand side and a range.
fn low_side(kind: RowKind, side: i64, range: Option<i64>) -> Option<i64>
    requires side { IsWithin MOST_SIDE side }
    requires range { IfSome range (IsWithin MOST_RANGE) }
    ensures { result ≡ low_side kind side range }
{
    match (kind, range) {
        (RowKind::N, _) | (RowKind::L, None) => None,
        (RowKind::L, Some(range)) => Some(side - range.abs()),
        (RowKind::E, Some(range)) if range < 0 => Some(side + range),
        _ => Some(side),
    }
}

/// The high side of a right-hand side and a range.
fn high_side(kind: RowKind, side: i64, range: Option<i64>) -> Option<i64>
    requires side { IsWithin MOST_SIDE side }
    requires range { IfSome range (IsWithin MOST_RANGE) }
    ensures { result ≡ high_side kind side range }
{
    match (kind, range) {
        (RowKind::N, _) | (RowKind::G, None) => None,
        (RowKind::G, Some(range)) => Some(side + range.abs()),
        (RowKind::E, Some(range)) if range >= 0 => Some(side + range),
        _ => Some(side),
    }
}

/// Whether there is such a number, and it is above this in size.
pub fn is_above(most: u64, number: Option<i64>) -> bool
    ensures { result ≡ is_above most number }
{
    match number {
        Some(number) => number.unsigned_abs() > most,
        None => false,
    }
}
