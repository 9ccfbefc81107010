//! The objective and the rows of a deck, but for their names.

ghost use Rattle.std.specs.Prelude.{◌≡◌, ◌<◌, length, map, flat_map, All, MatchOption, IfSome, Some, None, slice_get};
ghost use Rattle.um_statements.specs.Scaled.{IsShortDecimal};
ghost use Rattle.um_statements.specs.CallRules.{is_n};
ghost use Rattle.um_statements.specs.WellSaid.{IsRowSaid};
ghost use Rattle.um_statements.specs.Made.{objective, sided_rows};
ghost use Rattle.um_statements.specs.DeckRules.{row_rules, objective_rules};
ghost use Rattle.um_made.specs.Views.{row_said};
ghost use Rattle.um_made.specs.Makes.{Keeps, Makes};
ghost use Rattle.um_made.specs.RowWords.{rules_of_row, IsScaled};
ghost use Rattle.um_statements.specs.Scaled.{least_scale, is_within_at};
ghost use Rattle.std.specs.List.{list_all};
ghost use Rattle.std.specs.Prelude.{◌≤◌, ◌||◌, not};

use crate::RowPart;
use crate::numbers::RowNumbers;
use crate::scaled::{is_within_at, least_scale};
use crate::sides::{Sides, is_n, scale_beside, sides_of};
use crate::told::Told;
use std::alloc::Global;
use um_model::limits::{MOST_ARC, MOST_COEFFICIENT, MOST_SCALE};
use um_num::{Decimal, List, Name};
use um_statements::Fault;

/// A row's scale and sides.
#[derive(Clone, Copy, PartialEq, Eq, Debug)]
pub struct Scaled {
    pub scale: u8,
    pub sides: Sides,
}

/// The objective: its place among all rows, its scale and its right-hand side.
#[derive(Clone, Copy, PartialEq, Eq, Debug)]
pub struct Objective {
    pub place: u32,
    pub scale: u8,
    pub side: i64,
}

/// A sided row, that is one of two sides at most that is not N, but for its name.
#[derive(Clone, Copy, PartialEq, Eq, Debug)]
pub struct SidedRow {
    /// Its place among all rows.
    pub place: u32,
    pub scale: u8,
    pub low: Option<i64>,
    pub high: Option<i64>,
}

impl Told {
    ghost use Rattle.um_statements.specs.WellSaid.{IsSaid};
    ghost use Rattle.um_made.specs.Parts.{said};
    ghost use Rattle.um_made.specs.RowWords.{AreNumbers, IsObjective, sided_row};

    /// The first N row.
    pub fn objective(&self, numbers: &[RowNumbers]) -> Result<Objective, Fault>
        requires well { IsSaid (said self.now) }
        requires numbers { AreNumbers (said self.now) numbers.now }
        ensures { Keeps (objective_rules (said self.now) (objective (said self.now))) (IsObjective (said self.now)) result }
    {
        for (place, row) in self.rows.iter().enumerate() {
            if is_n(row.1.kind) {
                match scaled_row(&numbers[place], row) {
                    Ok(scaled) => {
                        return Ok(Objective {
                            place: place as u32,
                            scale: scaled.scale,
                            side: scaled.sides.side,
                        });
                    }
                    Err(fault) => return Err(fault),
                }
            }
        }
        Err(Fault::NoObjective)
    }

    /// The sided rows: those that are not N.
    pub fn sided_rows(&self, alloc: Global, numbers: &[RowNumbers]) -> Result<List<SidedRow>, Fault>
        requires well { IsSaid (said self.now) }
        requires numbers { AreNumbers (said self.now) numbers.now }
        ensures { Makes (flat_map (row_rules (said self.now)) (sided_rows (said self.now))) (λ list. list.items ≡ map (sided_row (said self.now)) (sided_rows (said self.now))) result }
    {
        let mut rows = List::new(alloc);
        for (place, row) in self.rows.iter().enumerate() {
            if is_n(row.1.kind) {
                continue;
            }
            let scaled = match scaled_row(&numbers[place], row) {
                Ok(scaled) => scaled,
                Err(fault) => return Err(fault),
            };
            rows.push(SidedRow {
                place: place as u32,
                scale: scaled.scale,
                low: scaled.sides.low,
                high: scaled.sides.high,
            })?;
        }
        Ok(rows)
    }
}

/// A row's scale and sides, or the first of its rules that is broken.
fn scaled_row(numbers: &RowNumbers, row: &(Name, RowPart)) -> Result<Scaled, Fault>
    requires coefficients { All IsShortDecimal numbers.now.coefficients.items }
    requires arcs { All IsShortDecimal numbers.now.arcs.items }
    requires beside { IsRowSaid (row_said row.now) }
    ensures { Keeps (rules_of_row numbers.now.coefficients.items numbers.now.arcs.items (row_said row.now)) (IsScaled numbers.now.coefficients.items numbers.now.arcs.items (row_said row.now)) result }
{
    let coefficients = numbers.coefficients.as_slice();
    let arcs = numbers.arcs.as_slice();
    let scale = least_scale(coefficients)
        .max(least_scale(arcs))
        .max(scale_beside(row));
    if scale > MOST_SCALE {
        return Err(Fault::TooFine);
    }
    if are_large(scale, coefficients, arcs) {
        return Err(Fault::TooLarge);
    }
    match sides_of(row, scale) {
        Some(sides) => Ok(Scaled {
            scale: scale as u8,
            sides,
        }),
        None => Err(Fault::TooLarge),
    }
}

/// Whether a coefficient or an arc is too large at the scale.
fn are_large(scale: u32, coefficients: &[Decimal], arcs: &[Decimal]) -> bool
    requires coefficients { All IsShortDecimal coefficients.now }
    requires arcs { All IsShortDecimal arcs.now }
    requires scale { scale ≤ MOST_SCALE }
    requires coefficients_whole { least_scale coefficients.now ≤ scale }
    requires arcs_whole { least_scale arcs.now ≤ scale }
    ensures { result ≡ (not (list_all (is_within_at MOST_COEFFICIENT scale) coefficients.now) || not (list_all (is_within_at MOST_ARC scale) arcs.now)) }
{
    !are_within_at(MOST_COEFFICIENT, scale, coefficients) || !are_within_at(MOST_ARC, scale, arcs)
}

/// Whether all these numbers are no more than this at the scale.
fn are_within_at(most: u64, scale: u32, numbers: &[Decimal]) -> bool
    requires small { All IsShortDecimal numbers.now }
    requires scale { scale ≤ MOST_SCALE }
    requires whole { least_scale numbers.now ≤ scale }
    ensures { result ≡ list_all (is_within_at most scale) numbers.now }
{
    for number in numbers {
        if !is_within_at(most, scale, number) {
            return false;
        }
    }
    true
}
