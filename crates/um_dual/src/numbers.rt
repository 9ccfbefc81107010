//! Sizes of fractions.

ghost use Rattle.std.specs.Prelude.{◌≡◌};
ghost use Rattle.um_lp.specs.DualSteps.{size};

use um_num::Frac;

/// The number without its sign.
#[tactic(auto, using(crate::proofs::Sizes::size_of_negative, crate::proofs::Sizes::size_of_other))]
pub fn size(x: &Frac) -> Frac
    ensures { result ≡ size x.now }
{
    if x.num() < 0 { x.neg() } else { *x }
}
