//! Lines of OBJSENSE and ROWS.

ghost use Rattle.std.specs.Prelude.{◌≡◌, OnOk};
ghost use Rattle.um_statements.specs.Tells.{TellsAll};
ghost use Rattle.um_statements.specs.CallRules.{is_n};
ghost use Rattle.um_decktext.specs.LineWords.{row_kind, sense_called};
ghost use Rattle.um_decktext.specs.LinesSay.{row_line, sense_line};
ghost use Rattle.um_mps.specs.Behind.{behind_row};

use crate::place::Place;
use um_maker::{DeckMaker, Fault, RowKind};
use um_setsec::{Few, few_of};
use um_text::Words;

/// Whether this word says that the deck maximises.
pub fn sense_called(word: &[u8]) -> Option<bool>
    ensures { result ≡ sense_called word.now }
{
    if word == b"MIN".as_slice() || word == b"MINIMIZE".as_slice() {
        Some(false)
    } else if word == b"MAX".as_slice() || word == b"MAXIMIZE".as_slice() {
        Some(true)
    } else {
        None
    }
}

/// A line of OBJSENSE.
#[tactic(auto, unfolding(um_statements::specs::CallRules::rules_of))]
pub fn sense_line(maker: &mut DeckMaker, words: &Words<'_>) -> Result<(), Fault>
    ensures { TellsAll (sense_line words.now) maker.old result maker.new }
{
    let Few::One(word) = few_of(words) else {
        return Err(Fault::BadWords);
    };
    let Some(maximise) = sense_called(word) else {
        return Err(Fault::UnknownKind);
    };
    maker.sense(maximise);
    Ok(())
}

fn row_kind(word: &[u8]) -> Option<RowKind>
    ensures { result ≡ row_kind word.now }
{
    if word == b"N".as_slice() {
        Some(RowKind::N)
    } else if word == b"L".as_slice() {
        Some(RowKind::L)
    } else if word == b"G".as_slice() {
        Some(RowKind::G)
    } else if word == b"E".as_slice() {
        Some(RowKind::E)
    } else {
        None
    }
}

/// A line of ROWS.
pub fn row_line(
    maker: &mut DeckMaker,
    place: &mut Place<'_>,
    words: &Words<'_>,
) -> Result<(), Fault>
    ensures told { TellsAll (row_line words.now) maker.old result maker.new }
    ensures place { OnOk result (place.new ≡ behind_row words.now place.old) }
{
    let Few::Two(kind, name) = few_of(words) else {
        return Err(Fault::BadWords);
    };
    let Some(kind) = row_kind(kind) else {
        return Err(Fault::UnknownKind);
    };
    maker.row(kind, name)?;
    place.has_objective |= is_n(kind);
    Ok(())
}

fn is_n(kind: RowKind) -> bool
    ensures { result ≡ is_n kind }
{
    match kind {
        RowKind::N => true,
        _ => false,
    }
}
