//! Functions that do nothing: each has a law as its contract, so that the law is sure to be proved.
//!
//! The laws say what reading back gives of what was written.

ghost use Rattle.um_text.specs.Laws.{FractionLaw, LineLaw, LinesLaw, TextLaw, WholeLaw};

/// The numeral of a number is read as that number.
pub fn whole_law()
    ensures { WholeLaw }
{}

/// The word of a fraction is read as its two parts.
pub fn fraction_law()
    ensures { FractionLaw }
{}

/// The words of a written line are the words that it was written of.
pub fn line_law()
    ensures { LineLaw }
{}

/// The lines of a written text are the lines that it was written of.
pub fn lines_law()
    ensures { LinesLaw }
{}

/// The words of a written text's lines are the words that it was written of.
pub fn text_law()
    ensures { TextLaw }
{}
