//! From the name of a file to the deck or the answer that its text is.

ghost use Rattle.std.specs.Prelude.{◌≡◌, false, IfOk, IfErr};
ghost use Rattle.um_model.specs.AnswerValues.{plain_answer};
ghost use Rattle.um_model.specs.Checkable.{IsCheckable};
ghost use Rattle.um_decktext.specs.DeckText.{DeckText};
ghost use Rattle.um_search.specs.Conditions.{IsSearched};
ghost use Rattle.um_treetext.specs.Reading.{TreeText};
ghost use Rattle.umpire.specs.DeckFiles.{HasDeck};
ghost use Rattle.umpire.specs.TreeFiles.{HasTree};
ghost use Rattle.umpire.specs.Solutions.{HasSearchedDeck};
ghost use Rattle.um_outside.specs.Scenes.{Idle};
ghost use Rattle.umpire.specs.Stops.{FileStopped, RefusesDeck, RefusesDeckOf, RefusesTreeFile, StopsFor, StopsForTree, StopsForWords, TextStopped, TreeStopped};

use crate::outcome::Refusal;
use std::alloc::Global;
use thiserror::Error;
use um_deck::Deck;
use um_model::Answer;
use um_model::limits::{MOST_DECK_BYTES, MOST_TREE_BYTES};
use um_mps::{ReadFault, read};
use um_num::Memory;
use um_outside::{Desk, FileFault, read_file};
use um_search::is_searched;
use um_statements::Fault;
use um_treetext::{TreeFault, TreeWord};
use um_words::WordFault;

/// The refusal of a deck that is not solved yet.
const UNTAKEN: ReadFault = ReadFault {
    line: 0,
    fault: Fault::NotYet,
};

/// The refusal of a file that is longer than any deck.
const LONG_DECK: ReadFault = ReadFault {
    line: 0,
    fault: Fault::TooLong,
};

/// The refusal of a file that is longer than any tree.
const LONG_TREE: TreeFault = TreeFault {
    line: 0,
    fault: TreeWord::TooMany,
};

/// Why a command comes to nothing.
#[derive(Clone, Copy, PartialEq, Eq, Debug, Error)]
pub enum Stop {
    #[error("refused: {0:?}")]
    Refused(Refusal),
    #[error("a fault of the outside")]
    Fault,
    #[error("no memory")]
    Memory,
}

impl From<Memory> for Stop {
    ghost use Rattle.umpire.specs.declared.reading.Stop.TheVariants as stop;

    ghost from_gives = { λ _ given. given ≡ stop.Memory };

    fn from(_memory: Memory) -> Stop {
        Stop::Memory
    }
}

/// The deck that a file is the text of. A file that is too long is refused before it is read to its end.
pub(crate) fn read_deck<D: Desk>(alloc: Global, desk: &mut D, name: &str) -> Result<Deck, Stop>
    requires idle { (D.scene desk.old).mode ≡ Idle }
    requires going { (D.scene desk.old).stopped ≡ false }
    ensures ok { IfOk result (λ deck. HasDeck name.now deck (D.scene desk.old) (D.scene desk.new)) }
    ensures err { IfErr result (λ stop. FileStopped name.now (RefusesDeck name.now) stop (D.scene desk.old) (D.scene desk.new)) }
{
    let bytes = match read_file(alloc, desk, name, MOST_DECK_BYTES) {
        Ok(bytes) => bytes,
        Err(FileFault::Fault) => return Err(Stop::Fault),
        Err(FileFault::TooLong) => return Err(Stop::Refused(Refusal::Deck(LONG_DECK))),
        Err(FileFault::Memory) => return Err(Stop::Memory),
    };
    deck_of(alloc, bytes.as_slice())
}

/// The deck of a text.
fn deck_of(alloc: Global, bytes: &[u8]) -> Result<Deck, Stop>
    ensures ok { IfOk result (DeckText bytes.now) }
    ensures err { IfErr result (TextStopped bytes.now) }
{
    match read(alloc, bytes) {
        Ok(deck) => Ok(deck),
        Err(fault) => Err(deck_stop(fault)),
    }
}

/// The deck that a file is the text of, where it is searched. Another deck, which has an arc, is refused as `NotYet` at
/// line 0.
pub(crate) fn read_searched<D: Desk>(alloc: Global, desk: &mut D, name: &str) -> Result<Deck, Stop>
    requires idle { (D.scene desk.old).mode ≡ Idle }
    requires going { (D.scene desk.old).stopped ≡ false }
    ensures ok { IfOk result (λ deck. HasSearchedDeck name.now deck (D.scene desk.old) (D.scene desk.new)) }
    ensures searched { IfOk result IsSearched }
    ensures err { IfErr result (λ stop. FileStopped name.now (RefusesDeckOf IsSearched name.now) stop (D.scene desk.old) (D.scene desk.new)) }
{
    match read_deck(alloc, desk, name) {
        Ok(deck) if is_searched(&deck) => Ok(deck),
        Ok(_) => Err(Stop::Refused(Refusal::Deck(UNTAKEN))),
        Err(stop) => Err(stop),
    }
}

/// The answer for the deck that a file is the text of. A file that is too long is refused before it is read to its end.
pub(crate) fn read_tree<D: Desk>(
    alloc: Global,
    desk: &mut D,
    deck: &Deck,
    name: &str,
) -> Result<Answer, Stop>
    requires idle { (D.scene desk.old).mode ≡ Idle }
    requires going { (D.scene desk.old).stopped ≡ false }
    ensures ok { IfOk result (λ answer. HasTree deck.now name.now (plain_answer answer) (D.scene desk.old) (D.scene desk.new)) }
    ensures checkable { IfOk result (λ answer. IsCheckable deck.now (plain_answer answer)) }
    ensures err { IfErr result (λ stop. FileStopped name.now (RefusesTreeFile deck.now name.now) stop (D.scene desk.old) (D.scene desk.new)) }
{
    let bytes = match read_file(alloc, desk, name, MOST_TREE_BYTES) {
        Ok(bytes) => bytes,
        Err(FileFault::Fault) => return Err(Stop::Fault),
        Err(FileFault::TooLong) => return Err(Stop::Refused(Refusal::Tree(LONG_TREE))),
        Err(FileFault::Memory) => return Err(Stop::Memory),
    };
    answer_of(alloc, deck, bytes.as_slice())
}

/// The answer of a tree's text.
fn answer_of(alloc: Global, deck: &Deck, bytes: &[u8]) -> Result<Answer, Stop>
    ensures ok { IfOk result (λ answer. TreeText deck.now bytes.now (plain_answer answer)) }
    ensures checkable { IfOk result (λ answer. IsCheckable deck.now (plain_answer answer)) }
    ensures err { IfErr result (TreeStopped deck.now bytes.now) }
{
    match um_treetext::read(alloc, deck, bytes) {
        Ok(answer) => Ok(answer),
        Err(fault) => Err(tree_stop(fault)),
    }
}

/// Want of memory is no refusal.
fn deck_stop(fault: ReadFault) -> Stop
    ensures { StopsFor fault result }
{
    match fault.fault {
        Fault::Memory => Stop::Memory,
        _ => Stop::Refused(Refusal::Deck(fault)),
    }
}

/// Want of memory is no refusal.
fn tree_stop(fault: TreeFault) -> Stop
    ensures { StopsForTree fault result }
{
    match fault.fault {
        TreeWord::Memory => Stop::Memory,
        _ => Stop::Refused(Refusal::Tree(fault)),
    }
}

/// Want of memory is no refusal.
pub(crate) fn words_stop(fault: WordFault) -> Stop
    ensures { StopsForWords fault result }
{
    match fault {
        WordFault::Memory => Stop::Memory,
        _ => Stop::Refused(Refusal::Words(fault)),
    }
}
