//! The arithmetic of lines: rows of whole numbers, each row over one denominator.

ghost use Rattle.std.specs.Prelude.{◌≡◌, ◌≢◌, ℕ, ℤ, ◌<◌, ◌≤◌, ◌^◌, pos, neg_ℤ, ◌*ℤ◌, ◌≤ℤ◌, length, unsigned_abs, OnOk, IfOk, IfErr, IfSome, IsTrue};
ghost use Rattle.um_laws.specs.Rational.{add, mul, neg, inverse};
ghost use Rattle.um_num.specs.Numbers.{IsInRange, IsOutOfRange};
ghost use Rattle.um_num.specs.Sizes.{IsShort, AreShort, AreLowest};
ghost use Rattle.um_num.specs.Views.{rational};
ghost use Rattle.std.specs.Int.{◌∣◌};
ghost use Rattle.std.specs.Result.{IsOk};
ghost use Rattle.um_lines.specs.Combined.{sum_at, IsGuess};
ghost use Rattle.um_lines.specs.Lines.{whole_at, AreInRange, IsLine};
ghost use Rattle.um_lines.specs.Nums.{nums_of, IsNums, IsHeld, IsShortSum, IsAdded};
ghost use Rattle.um_lines.specs.Turns.{AreWithin};

use crate::guess::{guess_divisor, short_size};
use crate::nums::Nums;
use crate::products::{ShortFactors, short_factors};
use crate::quotients::{common_divisor, divide};
use crate::whole::{Factors, combine_slowly, exact_step};
use crate::wide::combine_sums;
use um_num::{Op, Wide, gcd, part};

/// The denominator of a sum of rows, and what bounds the sizes of its numbers.
#[derive(Clone, Copy, Debug)]
pub struct ShortSum {
    pub den: i128,
    pub top: u64,
}

/// A row of 64-bit numbers, none of which is greater in size than the top.
#[derive(Clone, Copy, Debug)]
pub struct ShortRow<'a> {
    pub nums: &'a [i64],
    pub top: u64,
}

/// Brings a row and its denominator to lowest terms, and gives the new denominator.
fn reduce(den: i128, nums: &mut [i128]) -> i128
    requires { IsLine den nums.old }
    ensures line { IsLine result nums.new }
    ensures lowest { AreLowest result nums.new }
    ensures value { (j : ℕ) → j < length nums.old → rational (whole_at nums.new j) result ≡ rational (whole_at nums.old j) den }
{
    let shared = common_divisor(den, nums);
    if shared == 1 {
        return den;
    }
    divide(nums, shared);
    part(den, shared)
}

/// What a row, and a line over `den`, are multiplied by where the line is added `entry` times, which
/// are the two numbers over what they share.
fn factors_of(entry: i128, den: i128, shared: i128) -> Factors
    requires entry_in { IsInRange entry }
    requires den_in { IsInRange den }
    requires positive { pos 1 ≤ℤ den }
    requires shared_up { pos 1 ≤ℤ shared }
    requires shared_entry { unsigned_abs shared ∣ unsigned_abs entry }
    requires shared_den { unsigned_abs shared ∣ unsigned_abs den }
    ensures own_in { IsInRange result.own }
    ensures other_in { IsInRange result.other }
    ensures positive { pos 1 ≤ℤ result.own }
    ensures own_short { IsShort den → IsShort result.own }
    ensures other_short { IsShort entry → IsShort result.other }
    ensures cross { (result.other *ℤ den) ≡ (entry *ℤ result.own) }
{
    Factors {
        own: part(den, shared),
        other: part(entry, shared),
    }
}

/// The sum of two short rows, each times its factor, over a divisor of the denominator. Where it does
/// not divide all numbers, or sums are long, there is none.
fn add_over(
    own: ShortRow,
    line: ShortRow,
    factors: &ShortFactors,
    sum_den: i128,
    divisor: i128,
    out: &mut [i64],
) -> Option<ShortSum>
    requires own_within { AreWithin own.top own.nums.now }
    requires line_within { AreWithin line.top line.nums.now }
    requires positive { pos 1 ≤ℤ sum_den }
    requires den_in { IsInRange sum_den }
    requires divisor { IsGuess sum_den (sum_at factors.now.own factors.now.other own.nums.now line.nums.now) (length own.nums.now) divisor }
    requires line_fits { length line.nums.now ≡ length own.nums.now }
    requires out_fits { length out.old ≡ length own.nums.now }
    ensures { IfSome result (IsShortSum factors.now own.entry.nums.now line.entry.nums.now sum_den out.new) }
{
    let size = short_size(divisor)?;
    let top = combine_sums(factors, size, own.nums, own.top, line.nums, line.top, out)?;
    Some(ShortSum {
        den: part(sum_den, divisor),
        top,
    })
}

/// How many sums in which a guess at the divisor did not change are enough.
const ENOUGH: usize = 8;

/// The sum of two short rows, each times its factor, in lowest terms. Where numbers are long there is
/// none.
fn add_short(
    own: ShortRow,
    line: ShortRow,
    factors: &ShortFactors,
    sum_den: i128,
    out: &mut [i64],
) -> Option<ShortSum>
    requires own_within { AreWithin own.top own.nums.now }
    requires line_within { AreWithin line.top line.nums.now }
    requires positive { pos 1 ≤ℤ sum_den }
    requires den_in { IsInRange sum_den }
    requires line_fits { length line.nums.now ≡ length own.nums.now }
    requires out_fits { length out.old ≡ length own.nums.now }
    ensures { IfSome result (IsShortSum factors.now own.entry.nums.now line.entry.nums.now sum_den out.new) }
{
    let guess = guess_divisor(
        sum_den, factors, own.nums, own.top, line.nums, line.top, ENOUGH,
    );
    match add_over(own, line, factors, sum_den, guess, out) {
        Some(sum) => Some(sum),
        None => {
            let divisor = guess_divisor(
                sum_den,
                factors,
                own.nums,
                own.top,
                line.nums,
                line.top,
                usize::MAX,
            );
            add_over(own, line, factors, sum_den, divisor, out)
        }
    }
}

/// Writes the sum of two rows, each times its factor, in lowest terms, and gives its denominator.
fn add_slowly(
    own: &Nums,
    line: &Nums,
    factors: &Factors,
    sum_den: i128,
    out: &mut [i128],
) -> Result<i128, Wide>
    requires own { IsNums own.now }
    requires line { IsNums line.now }
    requires out { AreInRange out.old }
    requires own_factor { IsInRange factors.now.own }
    requires other_factor { IsInRange factors.now.other }
    requires positive { pos 1 ≤ℤ sum_den }
    requires den_in { IsInRange sum_den }
    requires line_fits { length (nums_of line.now) ≡ length (nums_of own.now) }
    requires out_fits { length out.old ≡ length (nums_of own.now) }
    ensures value { IfOk result (λ den. IsAdded factors.now (nums_of own.now) (nums_of line.now) sum_den den out.new) }
    ensures range { AreInRange out.new }
    ensures short { AreShort (nums_of own.now) → AreShort (nums_of line.now) → IsShort factors.now.own → IsShort factors.now.other → IsOk result }
    ensures wide { IfErr result IsOutOfRange }
{
    combine_slowly(factors, own, line, out)?;
    Ok(reduce(sum_den, out))
}

/// The same for two rows of 64-bit numbers, held in either form. Where numbers are long, there is none.
fn add_both_short(
    own: &Nums,
    line: &Nums,
    factors: &Factors,
    sum_den: i128,
    out: &mut Nums,
) -> Option<i128>
    requires own { IsNums own.now }
    requires line { IsNums line.now }
    requires out { IsNums out.old }
    requires positive { pos 1 ≤ℤ sum_den }
    requires den_in { IsInRange sum_den }
    requires line_fits { length (nums_of line.now) ≡ length (nums_of own.now) }
    requires out_fits { length (nums_of out.old) ≡ length (nums_of own.now) }
    ensures value { IfSome result (λ den. IsAdded factors.now (nums_of own.now) (nums_of line.now) sum_den den (nums_of out.new)) }
    ensures out { IsNums out.new }
    ensures long { length (nums_of out.new) ≡ length (nums_of own.now) }
{
    out.is_short = false;
    if !own.is_short || !line.is_short {
        return None;
    }
    let short = short_factors(factors)?;
    let own_row = ShortRow {
        nums: own.short.as_slice(),
        top: own.top,
    };
    let line_row = ShortRow {
        nums: line.short.as_slice(),
        top: line.top,
    };
    let sum = add_short(own_row, line_row, &short, sum_den, out.short.as_mut_slice())?;
    out.top = sum.top;
    out.is_short = true;
    Some(sum.den)
}

/// Writes the sum of two rows, each times its factor, in lowest terms, and gives its denominator.
fn add_rows(
    own: &Nums,
    line: &Nums,
    factors: &Factors,
    sum_den: i128,
    out: &mut Nums,
) -> Result<i128, Wide>
    requires own { IsNums own.now }
    requires line { IsNums line.now }
    requires out { IsNums out.old }
    requires own_factor { IsInRange factors.now.own }
    requires other_factor { IsInRange factors.now.other }
    requires positive { pos 1 ≤ℤ sum_den }
    requires den_in { IsInRange sum_den }
    requires line_fits { length (nums_of line.now) ≡ length (nums_of own.now) }
    requires out_fits { length (nums_of out.old) ≡ length (nums_of own.now) }
    ensures value { IfOk result (λ den. IsAdded factors.now (nums_of own.now) (nums_of line.now) sum_den den (nums_of out.new)) }
    ensures out { IsNums out.new }
    ensures long { length (nums_of out.new) ≡ length (nums_of own.now) }
    ensures short { AreShort (nums_of own.now) → AreShort (nums_of line.now) → IsShort factors.now.own → IsShort factors.now.other → IsOk result }
    ensures wide { IfErr result IsOutOfRange }
{
    if let Some(den) = add_both_short(own, line, factors, sum_den, out) {
        return Ok(den);
    }
    let den = add_slowly(own, line, factors, sum_den, out.long.as_mut_slice())?;
    out.settle();
    Ok(den)
}

/// Writes to `out` and `out_den` the row and the line times the row's entry at the column, in lowest
/// terms.
pub fn add_multiple(
    own: &Nums,
    den: i128,
    column: usize,
    line: &Nums,
    line_den: i128,
    out: &mut Nums,
    out_den: &mut i128,
) -> Result<(), Wide>
    requires own { IsHeld den own.now }
    requires line { IsHeld line_den line.now }
    requires out { IsHeld out_den.old out.old }
    requires column_in { column < length (nums_of own.now) }
    requires line_fits { length (nums_of line.now) ≡ length (nums_of own.now) }
    requires out_fits { length (nums_of out.old) ≡ length (nums_of own.now) }
    ensures out { IsHeld out_den.new out.new }
    ensures lowest { AreLowest out_den.new (nums_of out.new) }
    ensures short { IsShort den → AreShort (nums_of own.now) → IsShort line_den → AreShort (nums_of line.now) → IsOk result }
    ensures long { length (nums_of out.new) ≡ length (nums_of own.now) }
    ensures value { OnOk result ((j : ℕ) → j < length (nums_of own.now) → rational (whole_at (nums_of out.new) j) out_den.new ≡ add (rational (whole_at (nums_of own.now) j) den) (mul (rational (whole_at (nums_of own.now) column) den) (rational (whole_at (nums_of line.now) j) line_den))) }
    ensures wide { IfErr result IsOutOfRange }
{
    // Over 1 all numbers are in lowest terms, also those that a refusal leaves.
    *out_den = 1;
    let entry = own.get(column);
    let shared = gcd(entry, line_den);
    let factors = factors_of(entry, line_den, shared);
    let sum_den = exact_step(Op::Mul, den, factors.own)?;
    *out_den = add_rows(own, line, &factors, sum_den, out)?;
    Ok(())
}

/// Writes to `out` the row over minus its entry at the column, and gives its denominator.
///
/// The row's own denominator cancels. Where the row has minus its denominator somewhere, as each row
/// of a tableau has, what is written is in lowest terms if the row was.
pub fn divide_by_entry(nums: &Nums, column: usize, out: &mut Nums) -> i128
    requires nums { IsNums nums.now }
    requires out { IsNums out.old }
    requires column_in { column < length (nums_of nums.now) }
    requires out_fits { length (nums_of out.old) ≡ length (nums_of nums.now) }
    requires not_zero { whole_at (nums_of nums.now) column ≢ pos 0 }
    ensures out { IsHeld result out.new }
    ensures lowest { (den : ℤ) (place : ℕ) → pos 1 ≤ℤ den → place < length (nums_of nums.now) → whole_at (nums_of nums.now) place ≡ neg_ℤ den → AreLowest den (nums_of nums.now) → AreLowest result (nums_of out.new) }
    ensures long { length (nums_of out.new) ≡ length (nums_of nums.now) }
    ensures value { (den : ℤ) → pos 1 ≤ℤ den → (j : ℕ) → j < length (nums_of nums.now) → rational (whole_at (nums_of out.new) j) result ≡ mul (neg (inverse (rational (whole_at (nums_of nums.now) column) den))) (rational (whole_at (nums_of nums.now) j) den) }
{
    let entry = nums.get(column);
    nums.copy_to(out);
    if entry > 0 {
        out.turn();
        entry
    } else {
        -entry
    }
}
