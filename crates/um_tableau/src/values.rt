//! The values of the basic columns after a nonbasic column has moved.

ghost use Rattle.std.specs.Prelude.{◌≡◌, ◌≢◌, ℕ, ◌<◌, length, slice_index, IfOk, IfErr, OnOk};
ghost use Rattle.um_laws.specs.Rational.{add, mul};
ghost use Rattle.um_num.specs.Numbers.{IsOutOfRange};
ghost use Rattle.um_num.specs.NumberLists.{number_at};
ghost use Rattle.um_num.specs.Sizes.{IsSmall};
ghost use Rattle.std.specs.Result.{IsOk};
ghost use Rattle.um_tableau.specs.Rows.{row_at, entry_at, AreLong, AreBelow, AreDistinct};

use um_lines::Line;
use um_num::{Frac, Wide};

/// The value of the basic column of a row after the nonbasic column has risen by `change`.
fn moved(value: &Frac, line: &Line, column: usize, change: &Frac) -> Result<Frac, Wide>
    requires { column < length line.now }
    ensures value { IfOk result (λ moved. moved ≡ add value.now (mul (number_at line.now column) change.now)) }
    ensures narrow { IsSmall value.now → IsSmall (add value.now (mul (number_at line.now column) change.now)) → IsOk result }
    ensures wide { IfErr result IsOutOfRange }
{
    if change.is_zero() || line.is_zero_at(column) {
        return Ok(*value);
    }
    let rise = line.get(column).mul(change)?;
    value.add(&rise)
}

/// Writes to `out`, for each row, the value of its basic column after that.
pub fn move_basic(
    rows: &[Line],
    basic: &[u32],
    values: &[Frac],
    column: usize,
    change: &Frac,
    out: &mut [Frac],
) -> Result<(), Wide>
    requires column_in { column < length values.now }
    requires rows_long { AreLong (length values.now) rows.now }
    requires basic_fits { length basic.now ≡ length rows.now }
    requires basic_in { AreBelow (length values.now) basic.now }
    requires out_fits { length out.old ≡ length rows.now }
    ensures value { OnOk result ((i : ℕ) → i < length rows.now → number_at out.new i ≡ add (number_at values.now (slice_index basic.now i)) (mul (entry_at rows.now i column) change.now)) }
    ensures narrow { ((i : ℕ) → i < length rows.now → IsSmall (number_at values.now (slice_index basic.now i))) → ((i : ℕ) → i < length rows.now → IsSmall (add (number_at values.now (slice_index basic.now i)) (mul (entry_at rows.now i column) change.now))) → IsOk result }
    ensures wide { IfErr result IsOutOfRange }
{
    for i in 0..rows.len() {
        let place = basic[i] as usize;
        out[i] = moved(&values[place], &rows[i], column, change)?;
    }
    Ok(())
}

/// Gives the basic columns the values that stand in `moved`, row by row.
pub fn settle_basic(values: &mut [Frac], basic: &[u32], moved: &[Frac])
    requires basic_in { AreBelow (length values.old) basic.now }
    requires distinct { AreDistinct basic.now }
    requires moved_fits { length moved.now ≡ length basic.now }
    ensures basic { (i : ℕ) → i < length basic.now → number_at values.new (slice_index basic.now i) ≡ number_at moved.now i }
    ensures rest { (j : ℕ) → ((i : ℕ) → i < length basic.now → slice_index basic.now i ≢ j) → number_at values.new j ≡ number_at values.old j }
{
    for i in 0..basic.len() {
        let place = basic[i] as usize;
        values[place] = moved[i];
    }
}
