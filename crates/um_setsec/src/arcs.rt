//! Lines of quadratic arcs.

ghost use Rattle.um_statements.specs.Tells.{TellsLine};
ghost use Rattle.um_decktext.specs.SetLines.{arc_says};

use crate::few::{Few, few_of};
use crate::numerals::number;
use um_maker::{DeckMaker, Fault};
use um_text::Words;

/// A line of ARCS: the kind `Q`, a row, a column, and what the row gets of the column's square.
///
/// Faults: `BadWords` at another number of words than four; `UnknownKind`; `BadNumber` and `TooWide` of the numeral;
/// and those of the maker's call. After a fault the maker is as it was.
pub fn arc_line(maker: &mut DeckMaker, words: &Words<'_>) -> Result<(), Fault>
    ensures { TellsLine (arc_says words.now) maker.old result maker.new }
{
    let Few::Four(kind, row, column, word) = few_of(words) else {
        return Err(Fault::BadWords);
    };
    if kind != b"Q".as_slice() {
        return Err(Fault::UnknownKind);
    }
    let value = number(word)?;
    maker.arc(row, column, &value)
}
