//! Functions that do nothing: each has a law as its contract, so that the law is sure to be proved.

ghost use Rattle.um_dual.specs.Laws.{DualFeasibleLaw, NoReturnLaw, FewStepsLaw, FewUsedStepsLaw};

/// A step leaves a state dual feasible.
pub fn dual_feasible_law()
    ensures { DualFeasibleLaw }
{}

/// No basis with its statuses comes twice in a run.
pub fn no_return_law()
    ensures { NoReturnLaw }
{}

/// A run has fewer steps than there are ways for the columns to stand.
pub fn few_steps_law()
    ensures { FewStepsLaw }
{}

/// Places without a grid point do not count.
pub fn few_used_steps_law()
    ensures { FewUsedStepsLaw }
{}
