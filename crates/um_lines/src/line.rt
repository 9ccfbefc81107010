//! A line of numbers over one denominator.

ghost use Rattle.std.specs.Prelude.{◌≡◌, ◌≢◌, ℕ, ◌<◌, pos, length, map, IfOk, IfErr, OnOk, IsTrue, ◌↔◌};
ghost use Rattle.um_laws.specs.Rational.{add, mul, neg, inverse, whole};
ghost use Rattle.um_num.specs.Numbers.{IsOutOfRange};
ghost use Rattle.um_num.specs.NumberLists.{number_at};
ghost use Rattle.std.specs.Ordering.{int_cmp};
ghost use Rattle.std.specs.Result.{IsOk};
ghost use Rattle.um_lines.specs.Lines.{AreInRange, HasMinusOne, IsShortLine};

use crate::nums::Nums;
use crate::sums::{add_multiple, divide_by_entry};
use std::alloc::{AllocError, Global};
use std::cmp::Ordering;
use std::marker::Model;
use um_num::{Frac, Wide};

/// Whole numbers over a denominator that they share.
///
/// Contracts see a line as the list of its numbers. It is in lowest terms: nothing but 1 divides the
/// denominator and all whole numbers. In how many bits these are held no contract says.
#[derive(Debug, Drop)]
pub struct Line {
    nums: Nums,
    /// At least 1.
    den: i128,
}

impl Model for Line {
    ghost use Rattle.std.specs.Prelude.{List};
    ghost use Rattle.um_laws.specs.Rational.{Rational};
    ghost use Rattle.um_lines.specs.Lines.{numbers_of};
    ghost use Rattle.um_lines.specs.Nums.{nums_of, IsLowestHeld};

    ghost Value = { List Rational };

    ghost view = { λ l. numbers_of l.den (nums_of l.nums) };

    ghost invariant = { λ l. IsLowestHeld l.den l.nums };
}

impl Line {
    /// The line of these whole numbers.
    pub fn from_wholes(alloc: Global, nums: Vec<i128>) -> Result<Line, AllocError>
        requires { AreInRange nums.items }
        ensures { IfOk result (λ line. line ≡ map whole nums.items) }
    {
        let short = vec![in alloc; 0; nums.len()]?;
        Ok(Line {
            nums: Nums::from_long(nums, short),
            den: 1,
        })
    }

    pub fn len(&self) -> usize
        ensures { result ≡ length self.now }
    {
        self.nums.len()
    }

    /// The number at a column.
    pub fn get(&self, column: usize) -> Frac
        requires { column < length self.now }
        ensures { result ≡ number_at self.now column }
    {
        Frac::new(self.nums.get(column), self.den)
    }

    /// Whether the number at a column is above, at or below 0.
    pub fn sign(&self, column: usize) -> Ordering
        requires { column < length self.now }
        ensures { result ≡ int_cmp (number_at self.now column).num (pos 0) }
    {
        self.nums.get(column).cmp(&0)
    }

    /// Whether the number at a column is 0.
    pub fn is_zero_at(&self, column: usize) -> bool
        requires { column < length self.now }
        ensures { IsTrue result ↔ (number_at self.now column ≡ whole (pos 0)) }
    {
        self.nums.get(column) == 0
    }

    /// Writes to `out` this line and the other, times this line's number at the column.
    pub fn add_multiple(&self, column: usize, line: &Line, out: &mut Line) -> Result<(), Wide>
        requires column_in { column < length self.now }
        requires line_fits { length line.now ≡ length self.now }
        requires out_fits { length out.old ≡ length self.now }
        ensures long { length out.new ≡ length self.now }
        ensures value { OnOk result ((j : ℕ) → j < length self.now → number_at out.new j ≡ add (number_at self.now j) (mul (number_at self.now column) (number_at line.now j))) }
        ensures short { IsShortLine self.now → IsShortLine line.now → IsOk result }
        ensures wide { IfErr result IsOutOfRange }
    {
        add_multiple(
            &self.nums,
            self.den,
            column,
            &line.nums,
            line.den,
            &mut out.nums,
            &mut out.den,
        )
    }

    /// Writes to `out` this line over minus its number at the column.
    pub fn divide_by_entry(&self, column: usize, out: &mut Line)
        requires column_in { column < length self.now }
        requires out_fits { length out.old ≡ length self.now }
        requires own { HasMinusOne self.now }
        requires not_zero { number_at self.now column ≢ whole (pos 0) }
        ensures long { length out.new ≡ length self.now }
        ensures value { (j : ℕ) → j < length self.now → number_at out.new j ≡ mul (neg (inverse (number_at self.now column))) (number_at self.now j) }
    {
        out.den = divide_by_entry(&self.nums, column, &mut out.nums);
    }
}
