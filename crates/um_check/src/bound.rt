//! The least of the bounds of a tree's leaves.

ghost use Rattle.std.specs.Prelude.{◌≡◌, ◌↔◌, IsTrue};
ghost use Rattle.um_check.specs.Bounds.{lesser, joined, told};

use std::cmp::Ordering;
use um_num::Frac;

/// What leaves say of the bound that an answer states.
#[derive(Clone, Copy, Debug)]
pub enum LeastBound {
    /// None of them has a bound.
    Nothing,
    /// The bound of one of them has no end.
    Endless,
    /// The least of their bounds.
    Least(Frac),
}

impl LeastBound {
    /// What these leaves say together with others.
    pub fn join(self, others: LeastBound) -> LeastBound
        ensures { result ≡ joined self others }
    {
        match self {
            LeastBound::Nothing => others,
            LeastBound::Endless => LeastBound::Endless,
            LeastBound::Least(bound) => below(bound, others),
        }
    }

    /// The bound that an answer states.
    pub fn told(self) -> Option<Frac>
        ensures { result ≡ told self }
    {
        match self {
            LeastBound::Nothing | LeastBound::Endless => None,
            LeastBound::Least(bound) => Some(bound),
        }
    }
}

/// What leaves say whose bounds are this one and those of others.
fn below(bound: Frac, others: LeastBound) -> LeastBound
    ensures { result ≡ joined (LeastBound.Least bound) others }
{
    match others {
        LeastBound::Nothing => LeastBound::Least(bound),
        LeastBound::Endless => LeastBound::Endless,
        LeastBound::Least(other) => LeastBound::Least(lesser(bound, other)),
    }
}

fn lesser(bound: Frac, other: Frac) -> Frac
    ensures { result ≡ lesser bound other }
{
    match other.compare(&bound) {
        Ordering::Less => other,
        Ordering::Equal | Ordering::Greater => bound,
    }
}

#[tactic(auto, using(um_num::proofs::Parts::same_is))]
pub fn is_same(left: &Frac, right: &Frac) -> bool
    ensures { IsTrue result ↔ (left.now ≡ right.now) }
{
    left == right
}
