//! Which way a column helps one that leaves, and which end a value is beyond.

ghost use Rattle.std.specs.Prelude.{◌≡◌, ◌↔◌, pos, IsTrue};
ghost use Rattle.std.specs.Option.{ForSome};
ghost use Rattle.std.specs.Ordering.{int_cmp};
ghost use Rattle.um_laws.specs.Rational.{Rational};
ghost use Rattle.um_num.specs.Numbers.{IsInRange};
ghost use Rattle.um_lp.specs.DualSteps.{Helps, Harms, IsBelowEnd, IsAboveEnd};

use crate::board::At;
use std::cmp::Ordering;
use um_num::Frac;

/// Whether a column comes to the help of one that leaves to this end where it rises, by the sign of its
/// entry.
#[tactic(auto, using(crate::proofs::EntrySigns::is_above, crate::proofs::EntrySigns::is_below))]
pub fn helps(to: At, sign: Ordering) -> bool
    ensures { (entry : Rational) → sign ≡ int_cmp entry.num (pos 0) → IsTrue result ↔ Helps to entry }
{
    match to {
        At::Lower => sign.is_gt(),
        At::Upper => sign.is_lt(),
        At::Zero | At::Basic => false,
    }
}

/// Whether it does where it falls.
#[tactic(auto, using(crate::proofs::EntrySigns::is_above, crate::proofs::EntrySigns::is_below))]
pub fn harms(to: At, sign: Ordering) -> bool
    ensures { (entry : Rational) → sign ≡ int_cmp entry.num (pos 0) → IsTrue result ↔ Harms to entry }
{
    match to {
        At::Lower => sign.is_lt(),
        At::Upper => sign.is_gt(),
        At::Zero | At::Basic => false,
    }
}

/// Whether the value is below its low end; `None` is minus infinity.
pub fn is_below_end(low: Option<i128>, value: &Frac) -> bool
    requires { ForSome low IsInRange }
    ensures { IsTrue result ↔ IsBelowEnd low value.now }
{
    match low {
        Some(end) => value.is_below(&Frac::new(end, 1)),
        None => false,
    }
}

/// Whether the value is above its high end; `None` is infinity.
pub fn is_above_end(high: Option<i128>, value: &Frac) -> bool
    requires { ForSome high IsInRange }
    ensures { IsTrue result ↔ IsAboveEnd high value.now }
{
    match high {
        Some(end) => Frac::new(end, 1).is_below(value),
        None => false,
    }
}
