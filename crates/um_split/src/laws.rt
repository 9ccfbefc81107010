//! Functions that do nothing: each has a law as its contract, so that the law is sure to be proved.

ghost use Rattle.um_split.specs.Laws.{SplitLaw, BranchingLaw, SemiRootLaw, SemiChildLaw, KeptLaw};

/// The average split of a set fits the box, and the point lies in neither child.
pub fn split_law()
    ensures { SplitLaw }
{}

/// The branch that a point of a box asks for fits the box, and the point lies in neither child.
pub fn branching_law()
    ensures { BranchingLaw }
{}

/// The low ends of semicontinuous columns in the root box.
pub fn semi_root_law()
    ensures { SemiRootLaw }
{}

/// The low ends of semicontinuous columns in the children of a branch that fits.
pub fn semi_child_law()
    ensures { SemiChildLaw }
{}

/// A point that satisfies the rows and lies within the columns' ends, with whole integer columns and
/// semicontinuous columns in order, is feasible just where it keeps the rule of each set.
pub fn kept_law()
    ensures { KeptLaw }
{}
