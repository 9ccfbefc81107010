//! The lines of a board, its rows and its reduced costs, and what they are after a pivot.

ghost use Rattle.std.specs.Prelude.{◌≡◌, ◌≢◌, ℕ, ◌<◌, pos, length, IfErr, OnOk};
ghost use Rattle.um_laws.specs.Rational.{add, mul, whole};
ghost use Rattle.um_lp.specs.Basis.{pivot_line, pivot_entry};
ghost use Rattle.um_num.specs.Numbers.{IsOutOfRange};
ghost use Rattle.um_num.specs.NumberLists.{number_at};
ghost use Rattle.um_laws.specs.Rational.{Rational};
ghost use Rattle.std.specs.Prelude.{List};
ghost use Rattle.um_lp.specs.WideStates.{AreNarrow};
ghost use Rattle.um_lines.specs.Lines.{HasMinusOne};
ghost use Rattle.std.specs.Result.{IsOk};
ghost use Rattle.um_tableau.specs.Rows.{row_at, entry_at, AreLong, AreNextLines, AreSpare};

use crate::rows::{next_line, next_rows, take_line, take_rows};
use um_lines::Line;
use um_num::Wide;

/// Room for the lines after a pivot.
#[derive(Debug, Drop)]
pub struct SpareLines {
    pub rows: Vec<Line>,
    /// The new row of the entering column.
    pub line: Line,
    pub reduced: Line,
}

/// Writes the lines after a pivot beside the old ones.
pub fn next_lines(
    entries: &[Line],
    reduced: &Line,
    row: usize,
    column: usize,
    spare: &mut SpareLines,
) -> Result<(), Wide>
    requires row_in { row < length entries.now }
    requires column_in { column < length reduced.now }
    requires long { AreLong (length reduced.now) entries.now }
    requires spare { AreSpare (length entries.now) (length reduced.now) spare.old }
    requires own { HasMinusOne (row_at entries.now row) }
    requires not_zero { entry_at entries.now row column ≢ whole (pos 0) }
    ensures spare { AreSpare (length entries.now) (length reduced.now) spare.new }
    ensures next { OnOk result (AreNextLines entries.now reduced.now row column spare.new.line spare.new.rows.items spare.new.reduced) }
    ensures narrow { (line : List Rational) → length line ≡ length reduced.now → ((j : ℕ) → j < length reduced.now → number_at line j ≡ pivot_line (entry_at entries.now) row column j) → AreNarrow line → AreNarrow reduced.now → ((i : ℕ) → i < length entries.now → AreNarrow (row_at entries.now i)) → IsOk result }
    ensures wide { IfErr result IsOutOfRange }
{
    entries[row].divide_by_entry(column, &mut spare.line);
    next_line(reduced, column, &spare.line, &mut spare.reduced)?;
    next_rows(entries, row, column, &spare.line, spare.rows.as_mut_slice())
}

/// Exchanges the lines with those after a pivot.
pub fn take_lines(
    entries: &mut [Line],
    reduced: &mut Line,
    row: usize,
    column: usize,
    spare: &mut SpareLines,
)
    requires row_in { row < length entries.old }
    requires column_in { column < length reduced.old }
    requires long { AreLong (length reduced.old) entries.old }
    requires spare { AreSpare (length entries.old) (length reduced.old) spare.old }
    requires next { AreNextLines entries.old reduced.old row column spare.old.line spare.old.rows.items spare.old.reduced }
    ensures reduced_long { length reduced.new ≡ length reduced.old }
    ensures long { AreLong (length reduced.old) entries.new }
    ensures spare { AreSpare (length entries.old) (length reduced.old) spare.new }
    ensures entries { (i j : ℕ) → i < length entries.old → j < length reduced.old → entry_at entries.new i j ≡ pivot_entry (entry_at entries.old) row column i j }
    ensures reduced { (j : ℕ) → j < length reduced.old → number_at reduced.new j ≡ add (number_at reduced.old j) (mul (number_at reduced.old column) (pivot_line (entry_at entries.old) row column j)) }
{
    take_rows(entries, row, column, &spare.line, spare.rows.as_mut_slice());
    take_line(reduced, column, &mut spare.reduced);
    std::mem::swap(&mut entries[row], &mut spare.line);
}
