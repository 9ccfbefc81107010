//! Lines of COLUMNS.

ghost use Rattle.std.specs.Prelude.{◌≡◌, ◌<◌, ◌++◌, map, Ok, OnOk, MatchResult, Err, [], None, false, true, length};
ghost use Rattle.std.specs.Option.{option_eq};
ghost use Rattle.std.specs.Str.{bytes_eq};
ghost use Rattle.um_statements.specs.Tells.{TellsAll};
ghost use Rattle.um_decktext.specs.LineWords.{is_marker, opens};
ghost use Rattle.um_decktext.specs.LinesSay.{begun, column_line, entry_line, marker_line};
ghost use Rattle.um_statements.specs.Statements.{EntryTold};
ghost use Rattle.um_mps.specs.Pairs.{AreNumbers, pairs_of};
ghost use Rattle.um_mps.specs.Behind.{behind_column, HasItsColumn};

use crate::pairs::{Pairs, Part, read_pairs, tell_pairs};
use crate::place::Place;
use um_maker::{DeckMaker, Fault};
use um_setsec::{Few, few_of, word};
use um_text::Words;

/// Whether the line is a marker: three words, of which the second says so.
fn is_marker(words: &Words<'_>) -> bool
    ensures { result ≡ is_marker words.now }
{
    match few_of(words) {
        Few::Three(_, word, _) => word == b"'MARKER'".as_slice(),
        _ => false,
    }
}

/// A marker, which opens a block of integer columns or closes the open one.
fn marker_line(place: &mut Place<'_>, words: &Words<'_>) -> Result<(), Fault>
    requires { is_marker words.now ≡ true }
    ensures told { MatchResult result (λ _. marker_line place.old.in_block words.now ≡ Ok []) (λ fault. marker_line place.old.in_block words.now ≡ Err fault) }
    ensures place { OnOk result (place.new ≡ behind_column words.now place.old) }
{
    let end = word(words, 2);
    let wanted = if place.in_block {
        b"'INTEND'".as_slice()
    } else {
        b"'INTORG'".as_slice()
    };
    if end != wanted {
        return Err(Fault::Marker);
    }
    place.in_block = !place.in_block;
    place.column = None;
    Ok(())
}

/// Begins the column of a line, where the line before is of another.
fn begin(maker: &mut DeckMaker, place: &Place<'_>, column: &[u8]) -> Result<(), Fault>
    requires begun { HasItsColumn place.now maker.old }
    ensures told { TellsAll (Ok (begun place.now column.now)) maker.old result maker.new }
    ensures some { OnOk result (0 < length maker.new.columns) }
{
    if place.goes_on(column) {
        return Ok(());
    }
    maker.column(column, place.in_block)
}

/// Tells a maker what a column has in rows.
fn tell_column(
    maker: &mut DeckMaker,
    place: &Place<'_>,
    column: &[u8],
    pairs: &Pairs<'_>,
) -> Result<(), Fault>
    requires begun { HasItsColumn place.now maker.old }
    requires numbers { AreNumbers pairs.now }
    ensures told { TellsAll (Ok (begun place.now column.now ++ map (λ p. EntryTold p.0 p.1) (pairs_of pairs.now))) maker.old result maker.new }
    ensures some { OnOk result (0 < length maker.new.columns) }
{
    match begin(maker, place, column) {
        Ok(()) => tell_pairs(maker, Part::Entry, pairs),
        Err(fault) => Err(fault),
    }
}

/// What a column has in one row or two.
fn entry_line<'b>(
    maker: &mut DeckMaker,
    place: &mut Place<'b>,
    words: &Words<'b>,
) -> Result<(), Fault>
    requires begun { HasItsColumn place.old maker.old }
    requires entry { is_marker words.now ≡ false }
    ensures told { TellsAll (entry_line place.old words.now) maker.old result maker.new }
    ensures place { OnOk result (place.new ≡ behind_column words.now place.old) }
    ensures begun { OnOk result (HasItsColumn place.new maker.new) }
{
    let column = word(words, 0);
    let pairs = read_pairs(words, 1)?;
    match tell_column(maker, place, column, &pairs) {
        Ok(()) => {
            place.column = Some(column);
            Ok(())
        }
        Err(fault) => Err(fault),
    }
}

/// A line of COLUMNS.
pub fn column_line<'b>(
    maker: &mut DeckMaker,
    place: &mut Place<'b>,
    words: &Words<'b>,
) -> Result<(), Fault>
    requires begun { HasItsColumn place.old maker.old }
    ensures told { TellsAll (column_line place.old words.now) maker.old result maker.new }
    ensures place { OnOk result (place.new ≡ behind_column words.now place.old) }
    ensures begun { OnOk result (HasItsColumn place.new maker.new) }
{
    if is_marker(words) {
        marker_line(place, words)
    } else {
        entry_line(maker, place, words)
    }
}
