//! Bounds of semicontinuous columns.

ghost use Rattle.um_decktext.specs.SetLines.{semi_says, TellsLineFree};

use crate::few::{Few, few_of};
use crate::numerals::number;
use um_maker::{BoundKind, DeckMaker, Fault};
use um_text::Words;

/// A bound of kind SC: its column, semicontinuous from here on, and the column's high end. With `named` a set's
/// name stands before the column.
///
/// Faults: `BadWords` at another number of words than four with a set's name, and three without; `UnknownKind` at
/// another kind than `SC`; `BadNumber` and `TooWide` of the numeral; and those of the maker's call, which takes no
/// memory. After a fault the maker is as it was.
pub fn semi_line(maker: &mut DeckMaker, words: &Words<'_>, named: bool) -> Result<(), Fault>
    ensures { TellsLineFree (semi_says named words.now) maker.old result maker.new }
{
    let (kind, column, word) = match (named, few_of(words)) {
        (false, Few::Three(kind, column, word)) => (kind, column, word),
        (true, Few::Four(kind, _, column, word)) => (kind, column, word),
        _ => return Err(Fault::BadWords),
    };
    if kind != b"SC".as_slice() {
        return Err(Fault::UnknownKind);
    }
    let value = number(word)?;
    maker.bound(BoundKind::Sc, column, Some(&value))
}
