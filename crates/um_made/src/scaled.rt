//! Decimal numbers at a scale, which makes them whole.

ghost use Rattle.std.specs.Prelude.{◌≡◌, ◌≤◌, ◌<◌, ◌^◌, MatchOption, IsTrue, All, unsigned_abs, pos, ◌+ℤ◌, ◌≤ℤ◌, if◌then◌else◌, Some, None};
ghost use Rattle.um_statements.specs.Scaled.{decimals, least_scale, times_ten, is_within_at, IsShortDecimal};

use um_num::Decimal;

/// How many decimals the number has.
pub fn decimals(value: &Decimal) -> u32
    ensures { result ≡ decimals value.now }
{
    if value.power < 0 {
        value.power.unsigned_abs()
    } else {
        0
    }
}

/// The least scale that makes these numbers whole.
#[tactic(auto, using(crate::proofs::Scales::scale_push))]
pub fn least_scale(values: &[Decimal]) -> u32
    ensures { result ≡ least_scale values.now }
{
    let mut scale = 0;
    for value in values {
        scale = decimals(value).max(scale);
    }
    scale
}

/// The number times ten to the scale, which must be whole; `None` where its size is 2^127 or more.
pub fn times_ten(value: &Decimal, scale: u32) -> Option<i128>
    requires small { IsShortDecimal value.now }
    requires low { scale ≤ 10 }
    requires whole { pos 0 ≤ℤ (value.now.power +ℤ pos scale) }
    ensures { MatchOption result (2 ^ 127 ≤ unsigned_abs (times_ten value.now scale)) (λ z. z ≡ times_ten value.now scale) }
{
    if value.digits == 0 {
        return Some(0);
    }
    let places = zeros(value, scale);
    if places > 38 {
        return None;
    }
    value.digits.checked_mul(10_i128.pow(places))
}

/// How many zeros stand behind the digits at the scale.
fn zeros(value: &Decimal, scale: u32) -> u32
    requires small { IsShortDecimal value.now }
    requires low { scale ≤ 10 }
    requires whole { pos 0 ≤ℤ (value.now.power +ℤ pos scale) }
    ensures { pos result ≡ value.now.power +ℤ pos scale }
{
    (value.power + scale as i32) as u32
}

/// Whether the number is no more than this at the scale.
pub fn is_within_at(most: u64, scale: u32, value: &Decimal) -> bool
    requires small { IsShortDecimal value.now }
    requires low { scale ≤ 10 }
    requires whole { pos 0 ≤ℤ (value.now.power +ℤ pos scale) }
    ensures { result ≡ is_within_at most scale value.now }
{
    match times_ten(value, scale) {
        Some(scaled) => scaled.unsigned_abs() <= u128::from(most),
        None => false,
    }
}

/// The number at the scale, where it is no more than `most`.
pub fn scaled_within(most: u64, scale: u32, value: &Decimal) -> Option<i64>
    requires small { IsShortDecimal value.now }
    requires low { scale ≤ 10 }
    requires whole { pos 0 ≤ℤ (value.now.power +ℤ pos scale) }
    requires most { most < 2 ^ 63 }
    ensures { result ≡ (if is_within_at most scale value.now then Some (times_ten value.now scale) else None) }
{
    match times_ten(value, scale) {
        Some(scaled) if scaled.unsigned_abs() <= u128::from(most) => Some(scaled as i64),
        _ => None,
    }
}
