//! The slack basis again, from the lines of the making.

ghost use Rattle.std.specs.Prelude.{◌≡◌, ℕ, ◌+◌, ◌<◌, ◌^◌, pos, length, slice_index, slice_index_or, IfErr, OnOk, OnErr, Some, None};
ghost use Rattle.std.specs.Result.{IsOk};
ghost use Rattle.um_laws.specs.Rational.{whole};
ghost use Rattle.um_lp.proofs.Starts.{HasSlackBasis};
ghost use Rattle.um_lp.specs.States.{width};
ghost use Rattle.um_lp.specs.WideStates.{AreNarrow};
ghost use Rattle.um_num.specs.NumberLists.{number_at};
ghost use Rattle.um_num.specs.Numbers.{IsOutOfRange};
ghost use Rattle.um_tableau.specs.Rows.{row_at, AreLong, AreSpare};
ghost use Rattle.um_tableau.specs.Sheets.{state_of, AreEndsInRange, IsSpare};
ghost use Rattle.um_tableau.specs.Starts.{charged, AreFirstLines, AreFirstStatuses, AreWritten, IsSized};

use crate::given::Given;
use crate::lines::SpareLines;
use crate::sheet::{Sheet, Spare};
use crate::start::mark_slacks;
use um_lines::Line;
use um_lp::{At, Costs};
use um_num::{Frac, Wide};

/// The lines of the slack basis, kept from the making since a line is only made with memory.
#[derive(Debug, Drop)]
pub struct FirstLines {
    /// The rows of the system.
    pub rows: Vec<Line>,
    /// The given costs.
    pub costs: Line,
    /// A cost of 0 for each column.
    pub zeros: Line,
}

/// Writes a copy of a line to `out`, as the sum of it and a multiple of a line of zeros.
fn copy_line(own: &Line, zeros: &Line, out: &mut Line) -> Result<(), Wide>
    requires zeros_fit { length zeros.now ≡ length own.now }
    requires zeros { (j : ℕ) → j < length own.now → number_at zeros.now j ≡ whole (pos 0) }
    requires out_fits { length out.old ≡ length own.now }
    ensures long { length out.new ≡ length own.now }
    ensures same { OnOk result (out.new ≡ own.now) }
    ensures narrow { AreNarrow own.now → AreNarrow zeros.now → IsOk result }
    ensures wide { IfErr result IsOutOfRange }
{
    if own.len() == 0 {
        Ok(())
    } else {
        own.add_multiple(0, zeros, out)
    }
}

/// Writes copies of lines to `out`.
fn copy_lines(rows: &[Line], zeros: &Line, out: &mut [Line]) -> Result<(), Wide>
    requires zeros { (j : ℕ) → j < length zeros.now → number_at zeros.now j ≡ whole (pos 0) }
    requires rows_long { AreLong (length zeros.now) rows.now }
    requires out_fits { length out.old ≡ length rows.now }
    requires out_long { AreLong (length zeros.now) out.old }
    ensures out_long { AreLong (length zeros.now) out.new }
    ensures same { OnOk result ((i : ℕ) → i < length rows.now → row_at out.new i ≡ row_at rows.now i) }
    ensures narrow { ((i : ℕ) → i < length rows.now → AreNarrow (row_at rows.now i)) → AreNarrow zeros.now → IsOk result }
    ensures wide { IfErr result IsOutOfRange }
{
    for i in 0..rows.len() {
        copy_line(&rows[i], zeros, &mut out[i])?;
    }
    Ok(())
}

impl FirstLines {
    /// What is charged.
    fn charged(&self, costs: Costs) -> &Line
        ensures { result.now ≡ charged costs self.now }
    {
        match costs {
            Costs::Given => &self.costs,
            Costs::Nothing => &self.zeros,
        }
    }

    /// Writes the lines to the room.
    fn write(&self, given: &Given, costs: Costs, room: &mut SpareLines) -> Result<(), Wide>
        requires lines { AreFirstLines given.now self.now }
        requires room { AreSpare given.now.rows (width given.now) room.old }
        ensures room { AreSpare given.now.rows (width given.now) room.new }
        ensures written { OnOk result (AreWritten costs self.now room.new) }
        ensures narrow { ((i : ℕ) → i < length self.now.rows.items → AreNarrow (row_at self.now.rows.items i)) → AreNarrow (charged costs self.now) → AreNarrow self.now.zeros → IsOk result }
        ensures wide { IfErr result IsOutOfRange }
    {
        copy_line(self.charged(costs), &self.zeros, &mut room.reduced)?;
        copy_lines(self.rows.as_slice(), &self.zeros, room.rows.as_mut_slice())
    }
}

/// Gives each row its slack.
fn write_slacks(basic: &mut [u32], first: u32)
    requires { first + length basic.old < 2 ^ 32 }
    ensures { (i : ℕ) → i < length basic.old → slice_index basic.new i ≡ first + i }
{
    for i in 0..basic.len() {
        basic[i] = first + i as u32;
    }
}

/// Sends all columns to their low ends.
fn set_lower(at: &mut [At])
    ensures { (j : ℕ) → j < length at.old → slice_index_or at.new j At.Zero ≡ At.Lower }
{
    for j in 0..at.len() {
        at[j] = At::Lower;
    }
}

/// Sends all columns but the slacks to their low ends.
fn write_statuses(given: &Given, at: &mut [At])
    requires { length at.old ≡ width given.now }
    ensures { AreFirstStatuses given.now at.new }
{
    set_lower(at);
    mark_slacks(at, given.first_slack() as usize, given.rows() as usize);
}

/// Gives all columns ends of 0.
fn clear_ends(ends: &mut [(Option<i128>, Option<i128>)])
    ensures { (j : ℕ) → j < length ends.old → slice_index_or ends.new j (None, None) ≡ (Some (pos 0), Some (pos 0)) }
{
    for j in 0..ends.len() {
        ends[j] = (Some(0), Some(0));
    }
}

/// Gives all columns the value 0.
#[tactic(auto, unfolding(um_laws::specs::Rational::whole))]
fn clear_values(values: &mut [Frac])
    ensures { (j : ℕ) → j < length values.old → number_at values.new j ≡ whole (pos 0) }
{
    for j in 0..values.len() {
        values[j] = Frac::new(0, 1);
    }
}

impl Sheet {
    /// Puts the slack basis in the place of the old one; its lines are written.
    fn restart(&mut self, given: &Given, first: &FirstLines, costs: Costs, spare: &mut Spare)
        requires size { width given.now < 2 ^ 32 }
        requires sized { IsSized given.now self.old }
        requires lines { AreFirstLines given.now first.now }
        requires room { AreSpare given.now.rows (width given.now) spare.old.lines }
        requires moved { length spare.old.moved.items ≡ given.now.rows }
        requires written { AreWritten costs first.now spare.old.lines }
        ensures basis { HasSlackBasis (state_of given.now self.new) }
        ensures costs { self.new.costs ≡ costs }
        ensures ends { AreEndsInRange self.new.ends.items }
        ensures spare { IsSpare self.new spare.new }
    {
        std::mem::swap(&mut self.entries, &mut spare.lines.rows);
        std::mem::swap(&mut self.reduced, &mut spare.lines.reduced);
        write_slacks(self.basic.as_mut_slice(), given.first_slack());
        write_statuses(given, self.at.as_mut_slice());
        clear_ends(self.ends.as_mut_slice());
        clear_values(self.values.as_mut_slice());
        self.costs = costs;
    }

    /// The slack basis again, with these costs.
    pub fn reset(
        &mut self,
        given: &Given,
        first: &FirstLines,
        costs: Costs,
        spare: &mut Spare,
    ) -> Result<(), Wide>
        requires size { width given.now < 2 ^ 32 }
        requires sized { IsSized given.now self.old }
        requires lines { AreFirstLines given.now first.now }
        requires spare { IsSpare self.old spare.old }
        ensures basis { OnOk result (HasSlackBasis (state_of given.now self.new)) }
        ensures costs { OnOk result (self.new.costs ≡ costs) }
        ensures ends { OnOk result (AreEndsInRange self.new.ends.items) }
        ensures kept { OnErr result (self.new ≡ self.old) }
        ensures spare { IsSpare self.new spare.new }
        ensures narrow { ((i : ℕ) → i < length first.now.rows.items → AreNarrow (row_at first.now.rows.items i)) → AreNarrow (charged costs first.now) → AreNarrow first.now.zeros → IsOk result }
        ensures wide { IfErr result IsOutOfRange }
    {
        first.write(given, costs, &mut spare.lines)?;
        self.restart(given, first, costs, spare);
        Ok(())
    }
}
