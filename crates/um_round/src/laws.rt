//! Functions that do nothing: each has a law as its contract, so that the law is sure to be proved.

ghost use Rattle.um_round.specs.Examples.{Examples};
ghost use Rattle.um_round.specs.Laws.{NormalLinesLaw, NumeralLaw, RoundLaw};

/// What some numerals and a text are.
pub fn examples()
    ensures { Examples }
{}

/// A written numeral is read as the number that was written.
pub fn numeral_law()
    ensures { NumeralLaw }
{}

/// The lines of a deck's normal text are its normal lines.
pub fn normal_lines_law()
    ensures { NormalLinesLaw }
{}

/// The normal text of a deck whose arcs are in the objective is a deck text of that deck.
pub fn round_law()
    ensures { RoundLaw }
{}
