//! What a board holds of its state: the basis, where each column stands, and the numbers.

ghost use Rattle.std.specs.Prelude.{◌≡◌, ◌≢◌, ℕ, ◌<◌, ◌^◌, pos, length, slice_index, slice_set, IfOk, IfErr, OnOk, OnErr};
ghost use Rattle.std.specs.Option.{ForSome};
ghost use Rattle.um_laws.specs.Rational.{whole};
ghost use Rattle.um_num.specs.Numbers.{IsInRange, IsOutOfRange};
ghost use Rattle.um_num.specs.NumberLists.{number_at};
ghost use Rattle.um_lp.specs.States.{end_at, number_of_end, state_ends_of};
ghost use Rattle.um_tableau.specs.Rows.{row_at, entry_at, AreBelow, AreDistinct};
ghost use Rattle.um_lines.specs.Lines.{HasMinusOne};
ghost use Rattle.um_tableau.specs.NarrowActs.{IsNarrowPivot};
ghost use Rattle.std.specs.Result.{IsOk};
ghost use Rattle.um_tableau.specs.Sheets.{IsSheet, IsSpare, IsPrepared, AreValuesAfter, IsPivoted, basic_at, standing_at, ends_at};

use crate::lines::{SpareLines, next_lines, take_lines};
use crate::values::{move_basic, settle_basic};
use um_lines::Line;
use um_lp::{At, Costs};
use um_num::{Frac, Wide};

/// The basis of a board with the ends of its columns, and the numbers that follow.
#[derive(Debug, Drop)]
pub struct Sheet {
    /// The basic column of each row.
    pub basic: Vec<u32>,
    /// Where each column stands.
    pub at: Vec<At>,
    /// The low and the high end of each column; `None` is infinite.
    pub ends: Vec<(Option<i128>, Option<i128>)>,
    /// The rows of the tableau.
    pub entries: Vec<Line>,
    /// Which costs are taken.
    pub costs: Costs,
    /// The reduced costs.
    pub reduced: Line,
    /// The values of all columns.
    pub values: Vec<Frac>,
}

/// Room for the numbers of a sheet after an act.
#[derive(Debug, Drop)]
pub struct Spare {
    pub lines: SpareLines,
    /// For each row the value of its basic column.
    pub moved: Vec<Frac>,
}

/// The end at which a nonbasic column stands.
pub fn end_at(at: At, ends: (Option<i128>, Option<i128>)) -> Option<i128>
    ensures { result ≡ end_at at ends }
{
    match at {
        At::Lower => ends.0,
        At::Upper => ends.1,
        At::Zero | At::Basic => None,
    }
}

/// The number of an end, and 0 where there is none.
#[tactic(auto, unfolding(um_laws::specs::Rational::whole))]
pub fn number_of(end: Option<i128>) -> Frac
    requires { ForSome end IsInRange }
    ensures { result ≡ number_of_end end }
{
    match end {
        Some(number) => Frac::new(number, 1),
        None => Frac::new(0, 1),
    }
}

/// Gives the columns their values after a pivot.
fn set_values(
    values: &mut [Frac],
    basic: &[u32],
    row: usize,
    column: usize,
    end: &Frac,
    entered: &Frac,
    moved: &[Frac],
)
    requires row_in { row < length basic.now }
    requires column_in { column < length values.old }
    requires basic_in { AreBelow (length values.old) basic.now }
    requires distinct { AreDistinct basic.now }
    requires nonbasic { (i : ℕ) → i < length basic.now → slice_index basic.now i ≢ column }
    requires moved_fits { length moved.now ≡ length basic.now }
    ensures { AreValuesAfter basic.now row column end.now entered.now moved.now values.old values.new }
{
    settle_basic(values, basic, moved);
    values[basic[row] as usize] = *end;
    values[column] = *entered;
}

/// Where the columns stand after a pivot.
fn set_statuses(at: &mut [At], leaving: usize, column: usize, to: At)
    requires leaving_in { leaving < length at.old }
    requires column_in { column < length at.old }
    ensures { at.new ≡ slice_set (slice_set at.old leaving to) column At.Basic }
{
    at[leaving] = to;
    at[column] = At::Basic;
}

/// The basic columns after a pivot.
fn set_basic(basic: &mut [u32], row: usize, column: usize)
    requires row_in { row < length basic.old }
    requires column_in { column < 2 ^ 32 }
    ensures { basic.new ≡ slice_set basic.old row column }
{
    basic[row] = column as u32;
}

impl Sheet {
    /// Writes the numbers after a pivot beside the old ones, and gives the value of the entering column.
    fn prepare(
        &self,
        row: usize,
        column: usize,
        end: &Frac,
        spare: &mut Spare,
    ) -> Result<Frac, Wide>
        requires sheet { IsSheet self.now }
        requires row_in { row < length self.now.entries.items }
        requires column_in { column < length self.now.reduced }
        requires own { HasMinusOne (row_at self.now.entries.items row) }
        requires not_zero { entry_at self.now.entries.items row column ≢ whole (pos 0) }
        requires spare { IsSpare self.now spare.old }
        ensures spare { IsSpare self.now spare.new }
        ensures prepared { IfOk result (λ entered. IsPrepared self.now row column end.now entered spare.new) }
        ensures narrow { IsNarrowPivot self.now row column end.now → IsOk result }
        ensures wide { IfErr result IsOutOfRange }
    {
        let leaving = self.basic[row] as usize;
        let lack = end.sub(&self.values[leaving])?;
        let rise = lack.div(&self.entries[row].get(column))?;
        let entered = self.values[column].add(&rise)?;
        let entries = self.entries.as_slice();
        move_basic(
            entries,
            self.basic.as_slice(),
            self.values.as_slice(),
            column,
            &rise,
            spare.moved.as_mut_slice(),
        )?;
        next_lines(entries, &self.reduced, row, column, &mut spare.lines)?;
        Ok(entered)
    }

    /// Puts the numbers after a pivot in the place of the old ones.
    fn exchange(
        &mut self,
        row: usize,
        column: usize,
        to: At,
        end: &Frac,
        entered: &Frac,
        spare: &mut Spare,
    )
        requires sheet { IsSheet self.old }
        requires row_in { row < length self.old.entries.items }
        requires column_in { column < length self.old.reduced }
        requires nonbasic { (i : ℕ) → i < length self.old.entries.items → basic_at self.old i ≢ column }
        requires spare { IsSpare self.old spare.old }
        requires prepared { IsPrepared self.old row column end.now entered.now spare.old }
        ensures pivoted { IsPivoted self.old self.new row column to end.now }
        ensures spare { IsSpare self.old spare.new }
    {
        let leaving = self.basic[row] as usize;
        set_values(
            self.values.as_mut_slice(),
            self.basic.as_slice(),
            row,
            column,
            end,
            entered,
            spare.moved.as_slice(),
        );
        take_lines(
            self.entries.as_mut_slice(),
            &mut self.reduced,
            row,
            column,
            &mut spare.lines,
        );
        set_statuses(self.at.as_mut_slice(), leaving, column, to);
        set_basic(self.basic.as_mut_slice(), row, column);
    }

    /// The column enters, and the basic column of the row leaves to the named end.
    pub fn pivot(
        &mut self,
        row: usize,
        column: usize,
        to: At,
        spare: &mut Spare,
    ) -> Result<(), Wide>
        requires sheet { IsSheet self.old }
        requires row_in { row < length self.old.entries.items }
        requires column_in { column < length self.old.reduced }
        requires nonbasic { standing_at self.old column ≢ At.Basic }
        requires own { HasMinusOne (row_at self.old.entries.items row) }
        requires not_zero { entry_at self.old.entries.items row column ≢ whole (pos 0) }
        requires spare { IsSpare self.old spare.old }
        ensures pivoted { OnOk result (IsPivoted self.old self.new row column to (number_of_end (end_at to (ends_at self.old (basic_at self.old row))))) }
        ensures kept { OnErr result (self.new ≡ self.old) }
        ensures spare { IsSpare self.old spare.new }
        ensures narrow { IsNarrowPivot self.old row column (number_of_end (end_at to (ends_at self.old (basic_at self.old row)))) → IsOk result }
        ensures wide { IfErr result IsOutOfRange }
    {
        let leaving = self.basic[row] as usize;
        let end = number_of(end_at(to, self.ends[leaving]));
        let entered = self.prepare(row, column, &end, spare)?;
        self.exchange(row, column, to, &end, &entered, spare);
        Ok(())
    }
}
