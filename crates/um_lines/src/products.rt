//! Sums of products of 64-bit numbers.

ghost use Rattle.std.specs.Prelude.{◌≡◌, ◌*◌, ◌<◌, ◌≤◌, ◌^◌, ◌+ℤ◌, ◌*ℤ◌, unsigned_abs, IfSome};
ghost use Rattle.std.specs.Option.{IsSome};
ghost use Rattle.um_num.specs.Numbers.{IsInRange};
ghost use Rattle.um_num.specs.Sizes.{IsShort};

use crate::whole::Factors;
use um_num::long_product;

/// Factors so short that a sum of two 64-bit numbers times them is in range.
#[derive(Clone, Copy, Debug)]
pub struct ShortFactors {
    pub own: i64,
    pub other: i64,
    ghost own_short: { unsigned_abs own < 2 ^ 62 },
    ghost other_short: { unsigned_abs other < 2 ^ 62 },
}

/// From here on a factor is not short.
const LONG: i128 = 1 << 62;

/// The factors in 64 bits, where both are short.
pub fn short_factors(factors: &Factors) -> Option<ShortFactors>
    ensures own { IfSome result (λ short. short.own ≡ factors.now.own) }
    ensures other { IfSome result (λ short. short.other ≡ factors.now.other) }
    ensures taken { IsShort factors.now.own → IsShort factors.now.other → IsSome result }
{
    if -LONG < factors.own && factors.own < LONG && -LONG < factors.other && factors.other < LONG {
        Some(ShortFactors {
            own: factors.own as i64,
            other: factors.other as i64,
        })
    } else {
        None
    }
}

/// The sum of two 64-bit numbers, each times its short factor.
#[inline]
pub fn short_combination(factors: &ShortFactors, own: i64, other: i64) -> i128
    ensures value { result ≡ (own *ℤ factors.now.own) +ℤ (other *ℤ factors.now.other) }
    ensures range { IsInRange result }
{
    long_product(own, factors.own) + long_product(other, factors.other)
}
