//! Sums of rows of 64-bit numbers over what divides them, also where the sums are long and only the
//! quotients are short.

ghost use Rattle.std.specs.Prelude.{◌≡◌, ℕ, ◌<◌, ◌^◌, pos, ◌+ℤ◌, ◌*ℤ◌, length, unsigned_abs, IfSome};
ghost use Rattle.um_lines.specs.Lines.{whole_at};
ghost use Rattle.um_lines.specs.Turns.{AreSummedOver, AreWithin};

use crate::products::{ShortFactors, short_combination};
use crate::short::{Turns, are_sums_short, combine_turned, top_over, turned_sum, turns_of};
use um_num::long_product;

/// The sum of two numbers, each times its factor, over a divisor, where it is short and divides.
#[inline]
fn wide_quotient(
    factors: &ShortFactors,
    divisor: i64,
    turns: &Turns,
    own: i64,
    other: i64,
) -> Option<i64>
    requires { turns.now.shift < 64 }
    ensures { IfSome result (λ quotient. (quotient *ℤ divisor) ≡ (own *ℤ factors.now.own) +ℤ (other *ℤ factors.now.other)) }
{
    let quotient = turned_sum(turns, own, other) >> turns.shift;
    let whole = long_product(quotient, divisor);
    let sum = short_combination(factors, own, other);
    if whole == sum { Some(quotient) } else { None }
}

/// Writes the sum of two rows of 64-bit numbers, each times its factor, over what is thought to divide
/// it, and gives a bound of the sizes. Each quotient is tried by a long product.
fn combine_wide(
    factors: &ShortFactors,
    divisor: i64,
    turns: &Turns,
    own: &[i64],
    other: &[i64],
    out: &mut [i64],
) -> Option<u64>
    requires shift { turns.now.shift < 64 }
    requires other_fits { length other.now ≡ length own.now }
    requires out_fits { length out.old ≡ length own.now }
    ensures value { IfSome result (λ top. (j : ℕ) → j < length own.now → (whole_at out.new j *ℤ divisor) ≡ (whole_at own.now j *ℤ factors.now.own) +ℤ (whole_at other.now j *ℤ factors.now.other)) }
    ensures within { IfSome result (λ top. AreWithin top out.new) }
    ensures short { IfSome result (λ top. top < 2 ^ 63) }
{
    let mut sizes = 0;
    for j in 0..own.len() {
        let quotient = wide_quotient(factors, divisor, turns, own[j], other[j])?;
        out[j] = quotient;
        sizes |= quotient.unsigned_abs();
    }
    if sizes < 1 << 63 { Some(sizes) } else { None }
}

/// The number with a sign, where it is short.
fn signed(size: u64) -> Option<i64>
    ensures { IfSome result (λ number. number ≡ pos size) }
{
    match i64::try_from(size) {
        Ok(number) => Some(number),
        Err(_) => None,
    }
}

/// Writes the sum of two rows of 64-bit numbers, each times its factor, over what is thought to divide
/// it, and gives a bound of the sizes. Where it does not divide, or quotients are long, there is none.
pub fn combine_sums(
    factors: &ShortFactors,
    divisor: u64,
    own: &[i64],
    own_top: u64,
    other: &[i64],
    other_top: u64,
    out: &mut [i64],
) -> Option<u64>
    requires own_within { AreWithin own_top own.now }
    requires other_within { AreWithin other_top other.now }
    requires other_fits { length other.now ≡ length own.now }
    requires out_fits { length out.old ≡ length own.now }
    ensures value { IfSome result (λ top. AreSummedOver divisor factors.now.own factors.now.other own.now other.now out.new) }
    ensures within { IfSome result (λ top. AreWithin top out.new) }
    ensures short { IfSome result (λ top. top < 2 ^ 63) }
{
    // Each way has turns of its own: those of the first then stand in registers.
    if are_sums_short(factors.own, own_top, factors.other, other_top) {
        let turns = turns_of(factors.own, factors.other, divisor)?;
        let sizes = combine_turned(&turns, own, own_top, other, out);
        return top_over(&turns, sizes);
    }
    let number = signed(divisor)?;
    let turns = turns_of(factors.own, factors.other, divisor)?;
    combine_wide(factors, number, &turns, own, other, out)
}
