//! Functions that do nothing: each has a law as its contract, so that the law is sure to be proved.

ghost use Rattle.std.specs.Prelude.{ℕ, List};
ghost use Rattle.um_model.specs.Values.{DeckValue};
ghost use Rattle.um_treetext.specs.ReadLaws.{RuleLaw, TextLaw};

/// All bytes are the text of one answer, or break one rule first, and never both.
pub fn text_law()
    ensures { (d : DeckValue) (bytes : List ℕ) → TextLaw d bytes }
{}

/// Want of memory is no rule that a text breaks.
pub fn rule_law()
    ensures { RuleLaw }
{}
