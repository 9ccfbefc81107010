//! The laws that make a checked tree a proof.
//!
//! A caller may rest on this: an answer that is accepted is right, whoever made it, since the two
//! children of a box hold each feasible point of it, and no feasible point of a leaf's box goes below
//! the value of its multipliers. Each function does nothing and has a law as its contract, so that
//! the law is sure to be proved; proofs of other crates cite the lemmas in `proofs/`. What the laws
//! speak of is defined in `um_model`.
#![tactic(auto)]

ghost use Rattle.um_soundness.specs.Laws.{RootLaw, CoverLaw, VoidBoxLaw, BoundLaw, ClosedLeafLaw, EmptyLeafLaw, ExclusionLaw, OneSplitLaw, RayLaw, ScalingLaw, LeafBoundLaw, ObjectiveLaw, BrokenLaw, RoundingLaw, NearestLaw, VerdictLaw, AcceptedIsRightLaw};

/// Each feasible point is in the root box.
pub fn root_law()
    ensures { RootLaw }
{}

/// The two children of a box hold each feasible point of the box.
pub fn cover_law()
    ensures { CoverLaw }
{}

/// A void box has no feasible point.
pub fn void_box_law()
    ensures { VoidBoxLaw }
{}

/// No feasible point of a box has an objective below the value of any multipliers there.
pub fn bound_law()
    ensures { BoundLaw }
{}

/// No feasible point of a closed box beats the value at which it is closed.
pub fn closed_leaf_law()
    ensures { ClosedLeafLaw }
{}

/// A box that multipliers empty has no feasible point.
pub fn empty_leaf_law()
    ensures { EmptyLeafLaw }
{}

/// The average split of a set leaves the point that breaks its rule out of both children.
pub fn exclusion_law()
    ensures { ExclusionLaw }
{}

/// A set has one average split at a point.
pub fn one_split_law()
    ensures { OneSplitLaw }
{}

/// A feasible point moved along a ray stays feasible, and its objective falls.
pub fn ray_law()
    ensures { RayLaw }
{}

/// What is said of a point does not depend on a common factor of its numbers.
pub fn scaling_law()
    ensures { ScalingLaw }
{}

/// No feasible point of a box has an objective below the bound of a leaf there.
pub fn leaf_bound_law()
    ensures { LeafBoundLaw }
{}

/// A point has one objective.
pub fn objective_law()
    ensures { ObjectiveLaw }
{}

/// A point that breaks a part first is not feasible, and it breaks no other part first.
pub fn broken_law()
    ensures { BrokenLaw }
{}

/// The rounded quotients are the next whole numbers below and above.
pub fn rounding_law()
    ensures { RoundingLaw }
{}

/// No whole number is nearer to a curve's vertex than the nearest one, and none that is as near is lower.
pub fn nearest_law()
    ensures { NearestLaw }
{}

/// An accepted answer is right, whoever made it.
pub fn accepted_is_right_law()
    ensures { AcceptedIsRightLaw }
{}

/// There is one verdict on an answer.
pub fn verdict_law()
    ensures { VerdictLaw }
{}
