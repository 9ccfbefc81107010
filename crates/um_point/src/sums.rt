//! Sums over the columns of a deck, in 128 bits.

ghost use Rattle.std.specs.Prelude.{◌≡◌, ◌<◌, ◌≤◌, ◌*◌, ◌^◌, ◌*ℤ◌, unsigned_abs, None, length, map, All};
ghost use Rattle.um_laws.specs.Sums.{sum_of, dot};
ghost use Rattle.um_model.specs.Values.{ColumnValue, plain_column};
ghost use Rattle.um_model.specs.WellFormed.{IsWithin};
ghost use Rattle.um_model.specs.Feasible.{part};
ghost use Rattle.um_model.specs.declared.deck.Arc.{Arc};
ghost use Rattle.um_model.specs.declared.limits.TheConstants.{MOST_COLUMNS, MOST_SIDE, MOST_ARC};
ghost use Rattle.um_point.specs.RowSums.{arc_term};
ghost use Rattle.um_point.specs.SmallPoints.{FitsIn36Bits, IsSmallColumn};

use um_model::{Arc, Column};

/// What a column with this part adds to the costs.
fn cost_term(column: &Column, part: &i128) -> i128
    requires column { IsSmallColumn (plain_column column.now) }
    requires part { FitsIn36Bits part.now }
    ensures value { result ≡ column.now.cost *ℤ part.now }
    ensures size { IsWithin (2 ^ 67) result }
{
    i128::from(column.cost) * *part
}

/// The sum of the costs times these parts.
pub fn cost_sum(columns: &[Column], parts: &[i128]) -> i128
    requires columns { All IsSmallColumn (map plain_column columns.now) }
    requires few { length columns.now ≤ MOST_COLUMNS }
    requires parts { All FitsIn36Bits parts.now }
    requires beside { length parts.now ≡ length columns.now }
    ensures value { result ≡ dot (λ (c : ColumnValue). c.cost) (map plain_column columns.now) parts.now }
    ensures size { IsWithin (2 ^ 79) result }
{
    let mut sum = 0;
    for (index, column) in columns.iter().enumerate() {
        sum += cost_term(column, &parts[index]);
    }
    sum
}

/// A number times the square of a part.
pub fn times_square(number: i64, part: &i128) -> i128
    requires number { IsWithin MOST_SIDE number }
    requires part { FitsIn36Bits part.now }
    ensures value { result ≡ number *ℤ (part.now *ℤ part.now) }
    ensures size { unsigned_abs result ≤ unsigned_abs number * 2 ^ 72 }
{
    i128::from(number) * (*part * *part)
}

/// An arc's value times the square of its column's part.
pub fn arc_square(arc: &Arc, parts: &[i128]) -> i128
    requires value { IsWithin MOST_ARC arc.now.value }
    requires inside { arc.now.column < length parts.now }
    requires parts { All FitsIn36Bits parts.now }
    ensures value { result ≡ arc.now.value *ℤ (part parts.now arc.now.column *ℤ part parts.now arc.now.column) }
    ensures size { IsWithin (2 ^ 96) result }
{
    times_square(arc.value, &parts[arc.column as usize])
}

/// What an arc adds to the objective.
fn objective_term(arc: &Arc, parts: &[i128]) -> i128
    requires value { IsWithin MOST_ARC arc.now.value }
    requires inside { arc.now.column < length parts.now }
    requires parts { All FitsIn36Bits parts.now }
    ensures value { result ≡ arc_term None parts.now arc.now }
    ensures size { IsWithin (2 ^ 96) result }
{
    match arc.row {
        None => arc_square(arc, parts),
        Some(_) => 0,
    }
}

/// The sum of the objective's arcs at these parts.
pub fn square_sum(arcs: &[Arc], parts: &[i128]) -> i128
    requires few { length arcs.now ≤ 2 ^ 22 }
    requires values { All (λ (a : Arc). IsWithin MOST_ARC a.value) arcs.now }
    requires inside { All (λ (a : Arc). a.column < length parts.now) arcs.now }
    requires parts { All FitsIn36Bits parts.now }
    ensures value { result ≡ sum_of (arc_term None parts.now) arcs.now }
    ensures size { IsWithin (2 ^ 118) result }
{
    let mut sum = 0;
    for arc in arcs {
        sum += objective_term(arc, parts);
    }
    sum
}
