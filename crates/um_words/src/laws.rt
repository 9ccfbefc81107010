//! A function that does nothing: it has a law as its contract, so that the law is sure to be proved.

ghost use Rattle.um_words.specs.WholeLines.{SolveWordsLaw};

/// The words of `solve` are read as a line exactly where they are the command, the deck and options in some order, each
/// once and with its value.
pub fn solve_words_law()
    ensures { SolveWordsLaw }
{}
