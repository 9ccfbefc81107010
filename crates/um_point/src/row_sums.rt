//! The sums of all rows of a deck at a point, in one walk over the entries and one over the arcs.

ghost use Rattle.std.specs.Prelude.{◌≡◌, ◌<◌, ◌≤◌, ◌^◌, ◌*ℤ◌, length, map, All, Some};
ghost use Rattle.std.specs.Option.{ForSome};
ghost use Rattle.um_laws.specs.Sums.{sum_of, dot};
ghost use Rattle.um_model.specs.Values.{plain_column, plain_point};
ghost use Rattle.um_model.specs.WellFormed.{IsWithin};
ghost use Rattle.um_model.specs.Feasible.{coefficient, part, row_times};
ghost use Rattle.um_model.specs.declared.deck.Arc.{Arc};
ghost use Rattle.um_model.specs.declared.limits.TheConstants.{MOST_COLUMNS, MOST_COEFFICIENT, MOST_ARC};
ghost use Rattle.um_point.specs.RowSums.{AreSums, HaveGrown, arc_term};
ghost use Rattle.um_point.specs.SmallPoints.{FitsIn36Bits, IsSmallColumn, FitsMachine};

use crate::sums::arc_square;
use um_deck::Deck;
use um_model::limits::MOST_ROWS;
use um_model::{Arc, Column, Entry, Point};

/// A sum for each row that a deck may have, on the stack.
pub type RowSums = [i128; MOST_ROWS];

/// What an entry adds to the sum of its row.
fn entry_term(entry: &Entry, factor: &i128) -> i128
    requires value { IsWithin MOST_COEFFICIENT entry.now.value }
    requires factor { IsWithin (2 ^ 72) factor.now }
    ensures value { result ≡ entry.now.value *ℤ factor.now }
    ensures size { IsWithin (2 ^ 103) result }
{
    i128::from(entry.value) * *factor
}

/// Adds to each row's sum the column's coefficient in the row times the factor.
fn add_column(sums: &mut [i128], column: &Column, factor: &i128)
    requires sums { length sums.old ≡ MOST_ROWS }
    requires sizes { All (IsWithin (2 ^ 124)) sums.old }
    requires column { IsSmallColumn (plain_column column.now) }
    requires factor { IsWithin (2 ^ 72) factor.now }
    ensures { HaveGrown (λ row. coefficient row (plain_column column.now) *ℤ factor.now) sums.old sums.new }
{
    for entry in column.entries.as_slice() {
        sums[entry.row as usize] += entry_term(entry, factor);
    }
}

/// A column's part times the denominator.
fn scaled_part(point: &Point, index: usize) -> i128
    requires den { FitsIn36Bits point.now.den }
    requires parts { All FitsIn36Bits (plain_point point.now).parts }
    requires inside { index < length (plain_point point.now).parts }
    ensures value { result ≡ point.now.den *ℤ part (plain_point point.now).parts index }
    ensures size { IsWithin (2 ^ 72) result }
{
    point.den * point.parts.as_slice()[index]
}

/// What the entries give to each row: its coefficients times the parts, and times the denominator.
fn entry_sums(columns: &[Column], point: &Point) -> RowSums
    requires columns { All IsSmallColumn (map plain_column columns.now) }
    requires few { length columns.now ≤ MOST_COLUMNS }
    requires den { FitsIn36Bits point.now.den }
    requires parts { All FitsIn36Bits (plain_point point.now).parts }
    requires beside { length (plain_point point.now).parts ≡ length columns.now }
    ensures sums { AreSums (λ row. point.now.den *ℤ dot (coefficient row) (map plain_column columns.now) (plain_point point.now).parts) result }
    ensures sizes { All (IsWithin (2 ^ 124)) result }
{
    let mut sums = [0; MOST_ROWS];
    for (index, column) in columns.iter().enumerate() {
        add_column(&mut sums, column, &scaled_part(point, index));
    }
    sums
}

/// Adds to each row's sum its arcs, each one's value times the square of its column's part.
fn add_arcs(sums: &mut [i128], arcs: &[Arc], parts: &[i128])
    requires sizes { All (IsWithin (2 ^ 124)) sums.old }
    requires few { length arcs.now ≤ 2 ^ 22 }
    requires values { All (λ (a : Arc). IsWithin MOST_ARC a.value) arcs.now }
    requires rows { All (λ (a : Arc). ForSome a.row (λ row. row < length sums.old)) arcs.now }
    requires inside { All (λ (a : Arc). a.column < length parts.now) arcs.now }
    requires parts { All FitsIn36Bits parts.now }
    ensures { HaveGrown (λ row. sum_of (arc_term (Some row) parts.now) arcs.now) sums.old sums.new }
{
    for arc in arcs {
        let Some(row) = arc.row else {
            continue;
        };
        sums[row as usize] += arc_square(arc, parts);
    }
}

/// The rows' sums times the square of the denominator, scaled by each row; 0 past the last row.
pub fn row_sums(deck: &Deck, point: &Point) -> RowSums
    requires { FitsMachine deck.now (plain_point point.now) }
    ensures { AreSums (row_times deck.now (plain_point point.now)) result }
{
    deck.known();
    let mut sums = entry_sums(deck.columns(), point);
    add_arcs(&mut sums, deck.arcs(), point.parts.as_slice());
    sums
}
