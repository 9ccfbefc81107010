//! The trait of a board.

ghost use Rattle.std.specs.Prelude.{◌≡◌, ◌≢◌, ◌<◌, pos, Option, ℤ, IfOk, IfErr, OnOk, OnErr};
ghost use Rattle.um_laws.specs.Rational.{whole};
ghost use Rattle.um_num.specs.Numbers.{IsInRange};
ghost use Rattle.um_num.specs.Sizes.{Fits};
ghost use Rattle.std.specs.Option.{ForSome};
ghost use Rattle.std.specs.Ordering.{int_cmp};
ghost use Rattle.um_lp.specs.Boards.{IsBoard, IsPivot, IsRebox, IsReset, IsFinite, AreOrdered, IsWantedEndFinite};
ghost use Rattle.um_lp.specs.Refusals.{IsRefusedAt, IsRefusedAct};
ghost use Rattle.um_lp.specs.States.{State, width, at_of, basic_of, state_ends_of, entry_of, reduced_of, value_of};

use std::cmp::Ordering;
use um_num::{Frac, Wide};

/// Where a column of a board stands.
#[derive(Clone, Copy, PartialEq, Eq, Debug)]
pub enum At {
    /// At its low end.
    Lower,
    /// At its high end.
    Upper,
    /// At 0: neither end is finite.
    Zero,
    /// In the basis: its value follows from the others.
    Basic,
}

/// Which costs a board takes.
#[derive(Clone, Copy, PartialEq, Eq, Debug)]
pub enum Costs {
    /// Those of the relaxation.
    Given,
    /// Every cost is 0.
    Nothing,
}

/// A tableau of the bounded dual simplex method, with the ends and values of all columns.
///
/// Rows and columns are counted from 0. The columns of the relaxation come first, then a slack for
/// each row, then the places for grid points. `Wide` names an operation that is out of range, with
/// its operands; the board is then as it was.
pub trait Board {
    /// What the board shows.
    ghost state: { Self → State };

    /// The second is the first board in another state.
    ghost Keeps: { Self → Self → Type 0 };

    /// How many rows there are.
    fn rows(&self) -> u32
        ensures { result ≡ (state self.now).frame.rows };

    /// How many columns there are, slacks and places included.
    fn columns(&self) -> u32
        ensures { result ≡ width (state self.now).frame };

    /// Which costs the board took at its making, or at its last reset.
    fn costs(&self) -> Costs
        ensures { result ≡ (state self.now).costs };

    /// Where a column stands.
    fn at(&self, column: u32) -> At
        requires { column < width (state self.now).frame }
        ensures { result ≡ at_of (state self.now) column };

    /// The basic column of a row.
    fn basic(&self, row: u32) -> u32
        requires { row < (state self.now).frame.rows }
        ensures { result ≡ basic_of (state self.now) row };

    /// The low and the high end of a column; `None` is infinite.
    fn ends(&self, column: u32) -> (Option<i128>, Option<i128>)
        requires { column < width (state self.now).frame }
        ensures ends { result ≡ state_ends_of (state self.now) column }
        ensures low_in { ForSome result.0 IsInRange }
        ensures high_in { ForSome result.1 IsInRange };

    /// By how much the basic column of the row rises with the nonbasic column.
    fn entry(&self, row: u32, column: u32) -> Result<Frac, Wide>
        requires row_in { row < (state self.now).frame.rows }
        requires column_in { column < width (state self.now).frame }
        ensures value { IfOk result (λ entry. entry ≡ entry_of (state self.now) row column) }
        ensures wide { IfErr result (IsRefusedAt (state self.now)) };

    /// Whether that is above, at or below 0. It costs less than the entry itself, and is refused only
    /// where the entry is itself out of range.
    fn sign(&self, row: u32, column: u32) -> Result<Ordering, Wide>
        requires row_in { row < (state self.now).frame.rows }
        requires column_in { column < width (state self.now).frame }
        ensures value { IfOk result (λ sign. sign ≡ int_cmp (entry_of (state self.now) row column).num (pos 0)) }
        ensures wide { IfErr result (IsRefusedAt (state self.now)) }
        ensures large { IfErr result (λ _. ¬ Fits (entry_of (state self.now) row column)) };

    /// The reduced cost of a column.
    fn cost(&self, column: u32) -> Result<Frac, Wide>
        requires { column < width (state self.now).frame }
        ensures value { IfOk result (λ cost. cost ≡ reduced_of (state self.now) column) }
        ensures wide { IfErr result (IsRefusedAt (state self.now)) };

    /// The value of a column. It is refused only where it is itself out of range.
    fn value(&self, column: u32) -> Result<Frac, Wide>
        requires { column < width (state self.now).frame }
        ensures value { IfOk result (λ value. value ≡ value_of (state self.now) column) }
        ensures wide { IfErr result (IsRefusedAt (state self.now)) }
        ensures large { IfErr result (λ _. ¬ Fits (value_of (state self.now) column)) };

    /// The column enters the basis, and the basic column of the row leaves to the named end.
    fn pivot(&mut self, row: u32, column: u32, to: At) -> Result<(), Wide>
        requires row_in { row < (state self.old).frame.rows }
        requires column_in { column < width (state self.old).frame }
        requires nonbasic { at_of (state self.old) column ≢ At.Basic }
        requires not_zero { entry_of (state self.old) row column ≢ whole (pos 0) }
        requires finite { IsFinite to (state_ends_of (state self.old) (basic_of (state self.old) row)) }
        ensures ok { OnOk result (IsPivot row column to (state self.old) (state self.new)) }
        ensures err { OnErr result (state self.new ≡ state self.old) }
        ensures wide { IfErr result (IsRefusedAct (state self.old) (IsPivot row column to (state self.old))) }
        ensures keeps { Keeps self.old self.new };

    /// A column gets these ends. A nonbasic one goes to the end that its reduced cost wants; where
    /// that is 0 it stays if its end is finite, and else goes to its low end, its high end or 0.
    fn rebox(&mut self, column: u32, low: Option<i128>, high: Option<i128>) -> Result<(), Wide>
        requires column_in { column < width (state self.old).frame }
        requires low_in { ForSome low IsInRange }
        requires high_in { ForSome high IsInRange }
        requires ordered { AreOrdered (low, high) }
        requires wanted { IsWantedEndFinite (at_of (state self.old) column) (reduced_of (state self.old) column) (low, high) }
        ensures ok { OnOk result (IsRebox column (low, high) (state self.old) (state self.new)) }
        ensures err { OnErr result (state self.new ≡ state self.old) }
        ensures wide { IfErr result (IsRefusedAct (state self.old) (IsRebox column (low, high) (state self.old))) }
        ensures keeps { Keeps self.old self.new };

    /// The board is made anew over the rows of its making, with the costs of its making or with none: every
    /// slack is basic, every other column at its low end, all ends are 0, and the places for grid points are
    /// empty.
    fn reset(&mut self, costs: Costs) -> Result<(), Wide>
        ensures ok { OnOk result (IsReset costs (state self.old) (state self.new)) }
        ensures err { OnErr result (state self.new ≡ state self.old) }
        ensures wide { IfErr result (IsRefusedAct (state self.old) (IsReset costs (state self.old))) }
        ensures keeps { Keeps self.old self.new };

    /// What holds of every board.
    ghost belongs: { (b : Self) → IsBoard (state b) };

    /// Each board is itself in another state, and a second change is one change.
    ghost keeps_refl: { (b : Self) → Keeps b b };

    ghost keeps_trans: { (a b c : Self) → Keeps a b → Keeps b c → Keeps a c };
}
