//! The reader of a deck's text, line by line.

ghost use Rattle.std.specs.Prelude.{◌≡◌, ◌⊎◌, ◌≤◌, ◌≢◌, List, None, Some, MatchResult, OnOk, length, nat_eq, slice_index};
ghost use Rattle.um_text.specs.Words.{is_gap, words};
ghost use Rattle.um_statements.specs.declared.fault.Fault.TheVariants as fault;
ghost use Rattle.um_statements.specs.Tells.{TellsAll};
ghost use Rattle.um_statements.specs.Made.{deck_value};
ghost use Rattle.um_statements.specs.DeckRules.{deck_fault};
ghost use Rattle.um_decktext.specs.DeckLines.{Line, is_skipped, line_of};
ghost use Rattle.um_decktext.specs.LinesSay.{data_line};
ghost use Rattle.um_mps.specs.Behind.{behind_data, HasItsColumn};
ghost use Rattle.um_decktext.specs.DeckText.{DeckFault, DeckText};
ghost use Rattle.um_mps.specs.Reading.{IsBehind, IsPlace, Reads};

use crate::bounds::bound_line;
use crate::columns::column_line;
use crate::headings::heading_line;
use crate::pairs::{Part, pairs_line};
use crate::place::Place;
use crate::rows::{row_line, sense_line};
use crate::sets::set_line;
use std::alloc::Global;
use thiserror::Error;
use um_deck::Deck;
use um_decktext::Section;
use um_maker::{DeckMaker, Fault};
use um_model::limits::MOST_DECK_BYTES;
use um_setsec::arc_line;
use um_text::{Words, lines_of, words_of};

/// Where a text breaks a rule first, and which.
#[derive(Clone, Copy, PartialEq, Eq, Debug, Error)]
#[error("{fault} at line {line}")]
pub struct ReadFault {
    /// Counted from 1. It is 0 for a text that is too long, and for `NoEnd` of a text without lines. With `Memory`
    /// it says how far the text was read, and nothing of the text.
    pub line: u32,
    pub fault: Fault,
}

/// A data line.
fn data_line<'b>(
    maker: &mut DeckMaker,
    place: &mut Place<'b>,
    words: &Words<'b>,
) -> Result<(), Fault>
    requires may { IsPlace place.old maker.old }
    ensures told { TellsAll (data_line place.old.section place.old words.now) maker.old result maker.new }
    ensures place { OnOk result (place.new ≡ behind_data place.old.section words.now place.old) }
    ensures begun { OnOk result (HasItsColumn place.new maker.new) }
{
    match place.section {
        Some(Section::Objsense) => sense_line(maker, words),
        Some(Section::Rows) => row_line(maker, place, words),
        Some(Section::Columns) => column_line(maker, place, words),
        Some(Section::Rhs) => pairs_line(maker, Part::Side, place, words),
        Some(Section::Ranges) => pairs_line(maker, Part::Range, place, words),
        Some(Section::Bounds) => bound_line(maker, place, words),
        Some(Section::Sos) => set_line(maker, place, words),
        Some(Section::Arcs) => arc_line(maker, words),
        _ => Err(Fault::SectionOrder),
    }
}

fn starts_with(line: &[u8], byte: u8) -> bool
    requires { byte ≢ 0 }
    ensures { result ≡ nat_eq (slice_index line.now 0) byte }
{
    match line.first() {
        Some(first) => *first == byte,
        None => false,
    }
}

fn is_skipped(line: &[u8], parts: &Words<'_>) -> bool
    requires { parts.now ≡ words line.now }
    ensures { result ≡ is_skipped line.now }
{
    parts.len() == 0 || starts_with(line, b'*')
}

fn is_data(line: &[u8]) -> bool
    ensures { result ≡ is_gap (slice_index line.now 0) }
{
    starts_with(line, b' ') || starts_with(line, b'\t')
}

/// Reads one line behind others, and says whether it is the last.
fn read_line<'b>(
    alloc: Global,
    maker: &mut DeckMaker,
    place: &mut Place<'b>,
    line: &'b [u8],
) -> Result<bool, Fault>
    requires may { IsPlace place.old maker.old }
    ensures reads { (before : List Line) → IsBehind before place.old maker.old → Reads before (line_of line.entry.now) result place.new maker.new }
    ensures may { OnOk result (IsPlace place.new maker.new) }
{
    let words = words_of(alloc, line)?;
    if is_skipped(line, &words) {
        return Ok(false);
    }
    if is_data(line) {
        return match data_line(maker, place, &words) {
            Ok(()) => Ok(false),
            Err(fault) => Err(fault),
        };
    }
    match heading_line(maker, place, &words) {
        Ok(()) => Ok(place.is_at_end()),
        Err(fault) => Err(fault),
    }
}

/// The deck of a maker that was told all lines, of which this is the number.
fn finish(maker: DeckMaker, number: u32) -> Result<Deck, ReadFault>
    ensures { MatchResult result (λ d. (deck_fault maker ≡ None) × (d ≡ deck_value maker)) (λ e. (e.line ≡ number) × ((e.fault ≡ fault.Memory) ⊎ (deck_fault maker ≡ Some e.fault))) }
{
    match maker.finish() {
        Ok(deck) => Ok(deck),
        Err(fault) => Err(ReadFault {
            line: number,
            fault,
        }),
    }
}

/// Reads line by line. The text is short enough.
fn read_lines(alloc: Global, bytes: &[u8]) -> Result<Deck, ReadFault>
    requires { length bytes.now ≤ MOST_DECK_BYTES }
    ensures { MatchResult result (λ d. DeckText bytes.now d) (λ e. (e.fault ≡ fault.Memory) ⊎ DeckFault bytes.now e.line e.fault) }
{
    let mut maker = DeckMaker::new(alloc);
    let mut place = Place::start();
    let mut number: u32 = 0;
    let mut rest = lines_of(bytes);
    'lines: while let Some(line) = rest.next() {
        number += 1;
        match read_line(alloc, &mut maker, &mut place, line) {
            Ok(true) => return finish(maker, number),
            Ok(false) => {}
            Err(fault) => {
                return Err(ReadFault {
                    line: number,
                    fault,
                });
            }
        }
    }
    Err(ReadFault {
        line: number,
        fault: Fault::NoEnd,
    })
}

/// The deck of a text, or the first rule that it breaks, with its line. A text of more than 16,777,216 bytes is
/// `TooLong` at line 0. `Memory` may come in place of each answer.
pub fn read(alloc: Global, bytes: &[u8]) -> Result<Deck, ReadFault>
    ensures { MatchResult result (λ d. DeckText bytes.now d) (λ e. (e.fault ≡ fault.Memory) ⊎ DeckFault bytes.now e.line e.fault) }
{
    if bytes.len() > MOST_DECK_BYTES {
        return Err(ReadFault {
            line: 0,
            fault: Fault::TooLong,
        });
    }
    read_lines(alloc, bytes)
}
