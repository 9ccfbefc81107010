//! Lines of ordered sets.

ghost use Rattle.std.specs.Prelude.{◌≡◌};
ghost use Rattle.um_statements.specs.Tells.{TellsLine, wants_weight};
ghost use Rattle.um_decktext.specs.SetLines.{member_line, set_head, set_kind, set_says};

use crate::few::{Few, few_of, word};
use crate::numerals::number;
use um_maker::{DeckMaker, Fault, SetKind};
use um_text::Words;

/// The kind of the set that a line with this first word begins, if it begins one.
fn set_kind(word: &[u8]) -> Option<SetKind>
    ensures { result ≡ set_kind word.now }
{
    if word == b"S1".as_slice() {
        Some(SetKind::S1)
    } else if word == b"S2".as_slice() {
        Some(SetKind::S2)
    } else {
        None
    }
}

/// A line that begins a set: its name, and the reference row that gives the weights, if it has one.
fn set_head(maker: &mut DeckMaker, kind: SetKind, words: &Words<'_>) -> Result<(), Fault>
    ensures { TellsLine (set_head kind words.now) maker.old result maker.new }
{
    match few_of(words) {
        Few::Two(_, name) => maker.set(kind, name, None),
        Few::Three(_, name, row) => maker.set(kind, name, Some(row)),
        _ => Err(Fault::BadWords),
    }
}

/// A line of a member: its column, and its weight where the set has no reference row.
fn member_line(maker: &mut DeckMaker, words: &Words<'_>) -> Result<(), Fault>
    ensures { TellsLine (member_line (wants_weight maker.old) words.now) maker.old result maker.new }
{
    match (maker.wants_weight(), few_of(words)) {
        (Some(true), Few::Two(column, word)) => {
            let weight = number(word)?;
            maker.member(column, Some(&weight))
        }
        (Some(false), Few::One(column)) => maker.member(column, None),
        _ => Err(Fault::BadWords),
    }
}

/// A line of SOS: one that begins a set, or one that puts a column into the last set.
///
/// Faults: `BadWords` where the number of words is another, also at a member before all sets; `BadNumber` and
/// `TooWide` of a weight; and those of the maker's calls. After a fault the maker is as it was.
pub fn set_line(maker: &mut DeckMaker, words: &Words<'_>) -> Result<(), Fault>
    ensures { TellsLine (set_says (wants_weight maker.old) words.now) maker.old result maker.new }
{
    match set_kind(word(words, 0)) {
        Some(kind) => set_head(maker, kind, words),
        None => member_line(maker, words),
    }
}
