//! Functions that do nothing: each has a law as its contract, so that the law is sure to be proved.

ghost use Rattle.um_statements.specs.Laws.{EndsLaw, CollectedLaw, MoreLaw, SaidLaw, SaidAllLaw, MadeRowLaw, MadeDeckLaw};

/// What the last bounds set is what each bound in turn sets.
pub fn ends_law()
    ensures { EndsLaw }
{}

/// What is collected is what is told one by one.
pub fn collected_law()
    ensures { CollectedLaw }
{}

/// The same, for a maker that goes on.
pub fn more_law()
    ensures { MoreLaw }
{}

/// What is said keeps its form.
pub fn said_law()
    ensures { SaidLaw }
{}

/// What is told without a fault is well said.
pub fn said_all_law()
    ensures { SaidAllLaw }
{}

/// A row that breaks no rule is a row of a deck.
pub fn made_row_law()
    ensures { MadeRowLaw }
{}

/// What breaks no rule as a whole is a well-formed deck.
pub fn made_deck_law()
    ensures { MadeDeckLaw }
{}
