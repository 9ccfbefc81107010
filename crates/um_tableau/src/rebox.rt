//! New ends for a column.

ghost use Rattle.std.specs.Prelude.{◌≡◌, ◌≢◌, ℕ, ◌<◌, pos, length, slice_index, slice_set, slice_index_or, IfErr, OnOk, OnErr, None};
ghost use Rattle.std.specs.Option.{ForSome};
ghost use Rattle.um_num.specs.Numbers.{IsInRange, IsOutOfRange};
ghost use Rattle.um_laws.specs.Rational.{add, neg};
ghost use Rattle.um_lp.specs.Boards.{StandsAt, resting};
ghost use Rattle.um_num.specs.NumberLists.{number_at};
ghost use Rattle.um_tableau.specs.Rows.{AreBelow, AreDistinct};
ghost use Rattle.um_tableau.specs.NarrowActs.{IsNarrowMove};
ghost use Rattle.um_lp.specs.States.{end_at, number_of_end};
ghost use Rattle.std.specs.Result.{IsOk};
ghost use Rattle.um_tableau.specs.Sheets.{IsSheet, IsSpare, AreValuesMoved, IsMovedTo, KeepsAllButValues, KeepsAllButEnds, IsReboxed, standing_at, risen};

use crate::sheet::{Sheet, Spare, end_at, number_of};
use crate::values::{move_basic, settle_basic};
use um_lp::At;
use um_num::{Frac, Wide};

/// Where a nonbasic column with a reduced cost of 0 stands with these ends.
fn resting(before: At, ends: (Option<i128>, Option<i128>)) -> At
    ensures { result ≡ resting before ends }
{
    if end_at(before, ends).is_some() {
        return before;
    }
    match ends {
        (Some(_), _) => At::Lower,
        (None, Some(_)) => At::Upper,
        (None, None) => At::Zero,
    }
}

/// Where a column stands with these ends.
fn standing(before: At, cost: &Frac, ends: (Option<i128>, Option<i128>)) -> At
    ensures { StandsAt before result cost.now ends }
{
    let num = cost.num();
    match before {
        At::Basic => At::Basic,
        _ if num > 0 => At::Lower,
        _ if num < 0 => At::Upper,
        _ => resting(before, ends),
    }
}

/// Gives the columns their values after a nonbasic one went to an end.
fn set_moved_values(values: &mut [Frac], basic: &[u32], column: usize, end: &Frac, moved: &[Frac])
    requires column_in { column < length values.old }
    requires basic_in { AreBelow (length values.old) basic.now }
    requires distinct { AreDistinct basic.now }
    requires nonbasic { (i : ℕ) → i < length basic.now → slice_index basic.now i ≢ column }
    requires moved_fits { length moved.now ≡ length basic.now }
    ensures { AreValuesMoved basic.now column end.now moved.now values.old values.new }
{
    settle_basic(values, basic, moved);
    values[column] = *end;
}

impl Sheet {
    /// Writes the values of the basic columns after a column went to an end beside the old ones.
    fn prepare_move(&self, column: usize, end: &Frac, spare: &mut Spare) -> Result<(), Wide>
        requires sheet { IsSheet self.now }
        requires column_in { column < length self.now.reduced }
        requires spare { IsSpare self.now spare.old }
        ensures spare { IsSpare self.now spare.new }
        ensures moved { OnOk result ((i : ℕ) → i < length self.now.entries.items → number_at spare.new.moved.items i ≡ risen self.now column (add end.now (neg (number_at self.now.values.items column))) i) }
        ensures narrow { IsNarrowMove self.now column end.now → IsOk result }
        ensures wide { IfErr result IsOutOfRange }
    {
        let rise = end.sub(&self.values[column])?;
        move_basic(
            self.entries.as_slice(),
            self.basic.as_slice(),
            self.values.as_slice(),
            column,
            &rise,
            spare.moved.as_mut_slice(),
        )
    }

    /// A nonbasic column goes to an end, and the basic ones follow.
    fn move_to(&mut self, column: usize, end: &Frac, spare: &mut Spare) -> Result<(), Wide>
        requires sheet { IsSheet self.old }
        requires column_in { column < length self.old.reduced }
        requires nonbasic { standing_at self.old column ≢ At.Basic }
        requires spare { IsSpare self.old spare.old }
        ensures moved { OnOk result (IsMovedTo self.old self.new column end.now) }
        ensures others { OnOk result (KeepsAllButValues self.old self.new) }
        ensures kept { OnErr result (self.new ≡ self.old) }
        ensures spare { IsSpare self.old spare.new }
        ensures narrow { IsNarrowMove self.old column end.now → IsOk result }
        ensures wide { IfErr result IsOutOfRange }
    {
        self.prepare_move(column, end, spare)?;
        set_moved_values(
            self.values.as_mut_slice(),
            self.basic.as_slice(),
            column,
            end,
            spare.moved.as_slice(),
        );
        Ok(())
    }

    /// Notes where a column stands, and its ends.
    fn set_ends(&mut self, column: usize, at: At, ends: (Option<i128>, Option<i128>))
        requires at_in { column < length self.old.at.items }
        requires ends_in { column < length self.old.ends.items }
        ensures at { self.new.at.items ≡ slice_set self.old.at.items column at }
        ensures ends { self.new.ends.items ≡ slice_set self.old.ends.items column ends }
        ensures others { KeepsAllButEnds self.old self.new }
    {
        self.at[column] = at;
        self.ends[column] = ends;
    }

    /// The column gets these ends.
    pub fn rebox(
        &mut self,
        column: usize,
        low: Option<i128>,
        high: Option<i128>,
        spare: &mut Spare,
    ) -> Result<(), Wide>
        requires sheet { IsSheet self.old }
        requires column_in { column < length self.old.reduced }
        requires low_in { ForSome low IsInRange }
        requires high_in { ForSome high IsInRange }
        requires spare { IsSpare self.old spare.old }
        ensures reboxed { OnOk result (IsReboxed self.old self.new column (low, high)) }
        ensures kept { OnErr result (self.new ≡ self.old) }
        ensures spare { IsSpare self.old spare.new }
        ensures narrow { (standing_at self.old column ≢ At.Basic → (at : At) → StandsAt (standing_at self.old column) at (number_at self.old.reduced column) (low, high) → IsNarrowMove self.old column (number_of_end (end_at at (low, high)))) → IsOk result }
        ensures wide { IfErr result IsOutOfRange }
    {
        let before = self.at[column];
        let at = standing(before, &self.reduced.get(column), (low, high));
        if before != At::Basic {
            let end = number_of(end_at(at, (low, high)));
            self.move_to(column, &end, spare)?;
        }
        self.set_ends(column, at, (low, high));
        Ok(())
    }
}
