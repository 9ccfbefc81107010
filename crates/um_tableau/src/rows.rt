//! The rows of a board after a pivot: first written beside the old ones, then taken.

ghost use Rattle.std.specs.Prelude.{◌≡◌, ◌≢◌, ℕ, ◌<◌, pos, length, IfErr, OnOk};
ghost use Rattle.um_laws.specs.Rational.{whole};
ghost use Rattle.um_num.specs.Numbers.{IsOutOfRange};
ghost use Rattle.um_num.specs.NumberLists.{number_at};
ghost use Rattle.um_lp.specs.WideStates.{AreNarrow};
ghost use Rattle.std.specs.Result.{IsOk};
ghost use Rattle.um_tableau.specs.Rows.{row_at, entry_at, AreLong, IsNextLine};

use um_lines::Line;
use um_num::Wide;

/// Writes to `out` the line and the other, times the line's number at the column, where that is not 0.
pub fn next_line(own: &Line, column: usize, line: &Line, out: &mut Line) -> Result<(), Wide>
    requires column_in { column < length own.now }
    requires line_fits { length line.now ≡ length own.now }
    requires out_fits { length out.old ≡ length own.now }
    ensures long { length out.new ≡ length own.now }
    ensures value { OnOk result (IsNextLine own.now column line.now out.new) }
    ensures narrow { AreNarrow own.now → AreNarrow line.now → IsOk result }
    ensures wide { IfErr result IsOutOfRange }
{
    if own.is_zero_at(column) {
        Ok(())
    } else {
        own.add_multiple(column, line, out)
    }
}

/// Exchanges a line with the one that `next_line` wrote, where it wrote one.
pub fn take_line(own: &mut Line, column: usize, out: &mut Line)
    requires column_in { column < length own.old }
    requires out_fits { length out.old ≡ length own.old }
    ensures own_long { length own.new ≡ length own.old }
    ensures out_long { length out.new ≡ length own.old }
    ensures taken { number_at own.old column ≢ whole (pos 0) → own.new ≡ out.old }
    ensures kept { number_at own.old column ≡ whole (pos 0) → own.new ≡ own.old }
{
    if !own.is_zero_at(column) {
        std::mem::swap(own, out);
    }
}

/// Writes to `out` the rows after a pivot, where `line` is the new row of the entering column. A row
/// that has 0 at the column stays as it is, and nothing is written for it.
pub fn next_rows(
    rows: &[Line],
    row: usize,
    column: usize,
    line: &Line,
    out: &mut [Line],
) -> Result<(), Wide>
    requires column_in { column < length line.now }
    requires rows_long { AreLong (length line.now) rows.now }
    requires out_fits { length out.old ≡ length rows.now }
    requires out_long { AreLong (length line.now) out.old }
    ensures out_long { AreLong (length line.now) out.new }
    ensures value { OnOk result ((i : ℕ) → i < length rows.now → i ≢ row → IsNextLine (row_at rows.now i) column line.now (row_at out.new i)) }
    ensures narrow { ((i : ℕ) → i < length rows.now → AreNarrow (row_at rows.now i)) → AreNarrow line.now → IsOk result }
    ensures wide { IfErr result IsOutOfRange }
{
    for i in 0..rows.len() {
        if i != row {
            next_line(&rows[i], column, line, &mut out[i])?;
        }
    }
    Ok(())
}

/// Exchanges the rows with those that `next_rows` wrote.
pub fn take_rows(rows: &mut [Line], row: usize, column: usize, line: &Line, out: &mut [Line])
    requires column_in { column < length line.now }
    requires rows_long { AreLong (length line.now) rows.old }
    requires out_fits { length out.old ≡ length rows.old }
    requires out_long { AreLong (length line.now) out.old }
    ensures rows_long { AreLong (length line.now) rows.new }
    ensures out_long { AreLong (length line.now) out.new }
    ensures own { row_at rows.new row ≡ row_at rows.old row }
    ensures taken { (i : ℕ) → i < length rows.old → i ≢ row → entry_at rows.old i column ≢ whole (pos 0) → row_at rows.new i ≡ row_at out.old i }
    ensures kept { (i : ℕ) → i < length rows.old → i ≢ row → entry_at rows.old i column ≡ whole (pos 0) → row_at rows.new i ≡ row_at rows.old i }
{
    for i in 0..rows.len() {
        if i != row {
            take_line(&mut rows[i], column, &mut out[i]);
        }
    }
}
