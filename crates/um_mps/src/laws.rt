//! Functions that do nothing: each has a law as its contract, so that the law is sure to be proved.

ghost use Rattle.um_mps.specs.Laws.{FormedLaw, RuleLaw, TextLaw};
ghost use Rattle.um_mps.specs.Examples.{Decks, FormFaults, MoreFaults0, MoreFaults1, PlantFaults};

/// Which rules a small deck breaks where one line of it is changed.
pub fn plant_faults()
    ensures { PlantFaults }
{}

/// The decks of some texts.
pub fn decks()
    ensures { Decks }
{}

/// Which rules other small texts break.
pub fn more_faults()
    ensures first { MoreFaults0 }
    ensures second { MoreFaults1 }
{}

/// Which rules lines of sets, arcs and semicontinuous bounds break.
pub fn form_faults()
    ensures { FormFaults }
{}

/// All bytes either are the text of one deck, or one rule is the first that they break.
pub fn text_law()
    ensures { TextLaw }
{}

/// Want of memory is no rule that a text breaks.
pub fn rule_law()
    ensures { RuleLaw }
{}

/// What a text is read as is a well-formed deck.
pub fn formed_law()
    ensures { FormedLaw }
{}
