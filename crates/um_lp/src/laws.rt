//! Functions that do nothing: each has a law as its contract, so that the law is sure to be proved.

ghost use Rattle.um_lp.specs.Laws.{PivotLaw, OneTableauLaw, SameSolutionsLaw, TableauSolutionsLaw, OnePivotLaw, OneNextLaw, ResetStartLaw, ResetRowsLaw, ResetCostsLaw, NoCostsLaw, OneResetLaw};

/// A pivot leads from the tableau of a basis to that of the next.
pub fn pivot_law()
    ensures { PivotLaw }
{}

/// A basis has one table of entries.
pub fn one_tableau_law()
    ensures { OneTableauLaw }
{}

/// The rows of entries before and after a pivot have the same solutions.
pub fn same_solutions_law()
    ensures { SameSolutionsLaw }
{}

/// The tableau of a basis and the given rows have the same solutions.
pub fn tableau_solutions_law()
    ensures { TableauSolutionsLaw }
{}

/// A pivot of a state leads to one state.
pub fn one_pivot_law()
    ensures { OnePivotLaw }
{}

/// What comes next in a state is one thing.
pub fn one_next_law()
    ensures { OneNextLaw }
{}

/// A reset with the given costs leads to the start, which is a board.
pub fn reset_start_law()
    ensures { ResetStartLaw }
{}

/// After a reset the entries are the rows of the system.
pub fn reset_rows_law()
    ensures { ResetRowsLaw }
{}

/// After a reset the reduced costs are the costs.
pub fn reset_costs_law()
    ensures { ResetCostsLaw }
{}

/// On a board that takes no costs all reduced costs are 0.
pub fn no_costs_law()
    ensures { NoCostsLaw }
{}

/// A reset of a state leads to one state.
pub fn one_reset_law()
    ensures { OneResetLaw }
{}
