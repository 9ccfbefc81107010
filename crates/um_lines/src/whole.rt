//! Sums of rows of whole numbers in range.

ghost use Rattle.std.specs.Prelude.{◌≡◌, ℕ, ◌*◌, ◌<◌, ◌≤◌, ◌^◌, ◌+ℤ◌, ◌*ℤ◌, neg_ℤ, length, unsigned_abs, IfOk, IfErr, IfSome, IsTrue, OnOk};
ghost use Rattle.um_num.specs.Numbers.{IsInRange, IsOutOfRange, exact};
ghost use Rattle.um_num.specs.Sizes.{IsShort, AreShort};
ghost use Rattle.std.specs.Result.{IsOk};
ghost use Rattle.um_lines.specs.Lines.{whole_at, AreInRange};
ghost use Rattle.um_lines.specs.Turns.{AreWithin};
ghost use Rattle.um_lines.specs.Nums.{nums_of, IsNums};
ghost use Rattle.um_lines.specs.Combined.{AreCombined};

use crate::nums::Nums;
use um_num::{Op, Wide, step};

/// What the numbers of two rows are multiplied by in a sum of the rows.
#[derive(Clone, Copy, Debug)]
pub struct Factors {
    pub own: i128,
    pub other: i128,
}

/// The exact result of an operation. `Wide` names an operation that is out of range.
pub fn exact_step(op: Op, left: i128, right: i128) -> Result<i128, Wide>
    requires left { IsInRange left }
    requires right { IsInRange right }
    ensures value { IfOk result (λ value. value ≡ exact op left right) }
    ensures range { IfOk result IsInRange }
    ensures taken { IsInRange (exact op left right) → IsOk result }
    ensures wide { IfErr result IsOutOfRange }
{
    step(op, left, right)
}

/// The sum of two numbers, each times its factor.
fn combination(factors: &Factors, own: i128, other: i128) -> Result<i128, Wide>
    requires own_factor { IsInRange factors.now.own }
    requires other_factor { IsInRange factors.now.other }
    requires own { IsInRange own }
    requires other { IsInRange other }
    ensures value { IfOk result (λ sum. sum ≡ (own *ℤ factors.now.own) +ℤ (other *ℤ factors.now.other)) }
    ensures range { IfOk result IsInRange }
    ensures short { IsShort own → IsShort other → IsShort factors.now.own → IsShort factors.now.other → IsOk result }
    ensures wide { IfErr result IsOutOfRange }
{
    let left = exact_step(Op::Mul, own, factors.own)?;
    let right = exact_step(Op::Mul, other, factors.other)?;
    exact_step(Op::Add, left, right)
}

/// The sum of two rows, each times its factor.
pub fn combine_slowly(
    factors: &Factors,
    own: &Nums,
    other: &Nums,
    out: &mut [i128],
) -> Result<(), Wide>
    requires own_factor { IsInRange factors.now.own }
    requires other_factor { IsInRange factors.now.other }
    requires own { IsNums own.now }
    requires other { IsNums other.now }
    requires out { AreInRange out.old }
    requires other_fits { length (nums_of other.now) ≡ length (nums_of own.now) }
    requires out_fits { length out.old ≡ length (nums_of own.now) }
    ensures value { OnOk result (AreCombined factors.now (nums_of own.now) (nums_of other.now) out.new) }
    ensures range { AreInRange out.new }
    ensures short { AreShort (nums_of own.now) → AreShort (nums_of other.now) → IsShort factors.now.own → IsShort factors.now.other → IsOk result }
    ensures wide { IfErr result IsOutOfRange }
{
    for j in 0..own.len() {
        out[j] = combination(factors, own.get(j), other.get(j))?;
    }
    Ok(())
}

/// Turns the sign of each number of a row.
pub fn negate(nums: &mut [i128])
    requires range { AreInRange nums.old }
    ensures value { (j : ℕ) → j < length nums.old → whole_at nums.new j ≡ neg_ℤ (whole_at nums.old j) }
    ensures range { AreInRange nums.new }
{
    for j in 0..nums.len() {
        nums[j] = -nums[j];
    }
}

/// The same for 64-bit numbers.
pub fn negate_short(nums: &mut [i64], top: u64)
    requires within { AreWithin top nums.old }
    requires top_short { top < 2 ^ 63 }
    ensures value { (j : ℕ) → j < length nums.old → whole_at nums.new j ≡ neg_ℤ (whole_at nums.old j) }
    ensures within { AreWithin top nums.new }
{
    for j in 0..nums.len() {
        nums[j] = -nums[j];
    }
}
