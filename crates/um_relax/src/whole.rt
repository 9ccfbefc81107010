//! Fractions as whole numbers over their least common denominator.

ghost use Rattle.std.specs.Prelude.{◌≡◌, ◌<◌, ◌≤◌, ◌^◌, ◌/◌, pos, ◌*ℤ◌, ◌≤ℤ◌, unsigned_abs, length, IfOk};
ghost use Rattle.std.specs.Option.{MatchOption};
ghost use Rattle.um_lp.specs.WideStates as WideStates;
ghost use Rattle.um_num.specs.Numbers.{IsInRange};
ghost use Rattle.um_duality.specs.WholeMultiples.{times, prices_from};
ghost use Rattle.um_relax.specs.Parts.{IsProduct, IsCommon, IsLeastDenominator, IsTimes, IsWholeOf, IsPrice, AreTooLarge};

use std::alloc::Global;
use um_lp::Price;
use um_num::{Frac, List, Memory, gcd};

/// Whole numbers over one denominator.
#[derive(Debug, Drop)]
pub struct Whole {
    pub den: i128,
    pub parts: List<i128>,
}

/// The product, if it is below the limit in size.
fn product_below(a: i128, b: i128, limit: u64) -> Option<i128>
    requires a_in { IsInRange a }
    requires b_in { IsInRange b }
    ensures { MatchOption result (¬ unsigned_abs (a *ℤ b) < limit) (IsProduct a b limit) }
{
    let product = a.checked_mul(b)?;
    if product.unsigned_abs() < u128::from(limit) {
        Some(product)
    } else {
        None
    }
}

/// How often one number goes into another.
fn over(a: i128, b: i128) -> i128
    requires a_in { IsInRange a }
    requires b_in { IsInRange b }
    requires a_positive { pos 1 ≤ℤ a }
    requires b_positive { pos 1 ≤ℤ b }
    ensures value { result ≡ pos (unsigned_abs a / unsigned_abs b) }
    ensures range { IsInRange result }
{
    a / b
}

/// The least common multiple, if it is below the limit.
fn common(a: i128, b: i128, limit: u64) -> Option<i128>
    requires a_in { IsInRange a }
    requires b_in { IsInRange b }
    requires a_positive { pos 1 ≤ℤ a }
    requires b_positive { pos 1 ≤ℤ b }
    ensures { MatchOption result (¬ WideStates.common (unsigned_abs a) (unsigned_abs b) < limit) (IsCommon (unsigned_abs a) (unsigned_abs b) limit) }
{
    product_below(over(a, gcd(a, b)), b, limit)
}

/// The least common denominator, if it is below the limit.
fn least_denominator(numbers: &[Frac], limit: u64) -> Option<i128>
    requires { 1 < limit }
    ensures { MatchOption result (¬ WideStates.common_denominator numbers.now < limit) (IsLeastDenominator numbers.now limit) }
{
    let mut den = 1;
    for index in (0..numbers.len()).rev() {
        den = common(numbers[index].den(), den, limit)?;
    }
    Some(den)
}

/// The number times a multiple of its denominator, if that is below the limit in size.
fn times(multiple: i128, x: &Frac, limit: u64) -> Option<i128>
    requires positive { pos 1 ≤ℤ multiple }
    requires multiple_in { IsInRange multiple }
    ensures { MatchOption result (¬ unsigned_abs (times (unsigned_abs multiple) x.now) < limit) (IsTimes (unsigned_abs multiple) x.now limit) }
{
    product_below(x.num(), over(multiple, x.den()), limit)
}

/// The numbers over their least common denominator; `None` where that or one of the whole numbers is
/// not below the limit in size.
pub fn least_whole(alloc: Global, numbers: &[Frac], limit: u64) -> Result<Option<Whole>, Memory>
    requires { 1 < limit }
    ensures { IfOk result (λ whole. MatchOption whole (AreTooLarge limit numbers.now) (IsWholeOf limit numbers.now)) }
{
    let Some(den) = least_denominator(numbers, limit) else {
        return Ok(None);
    };
    let mut parts = List::new(alloc);
    for x in numbers {
        match times(den, x, limit) {
            Some(part) => parts.push(part)?,
            None => return Ok(None),
        }
    }
    Ok(Some(Whole { den, parts }))
}

/// The multiplier of a row; none where it is 0.
fn price(row: u32, value: &i128) -> Option<Price>
    ensures { MatchOption result (value.now ≡ pos 0) (IsPrice row value.now) }
{
    if *value == 0 {
        return None;
    }
    Some(Price { row, value: *value })
}

/// One multiplier for each number that is not 0, by rising row.
pub(crate) fn normal(alloc: Global, numbers: &[i128]) -> Result<List<Price>, Memory>
    requires { length numbers.now < 2 ^ 32 }
    ensures { IfOk result (λ rows. rows.items ≡ prices_from 0 numbers.now) }
{
    let mut rows = List::new(alloc);
    for (row, value) in numbers.iter().enumerate() {
        if let Some(price) = price(row as u32, value) {
            rows.push(price)?;
        }
    }
    Ok(rows)
}
