//! The bounds of columns.

ghost use Rattle.std.specs.Prelude.{◌≡◌, ◌∷◌, ◌++◌, [], codes, map, OnOk, Some, None};
ghost use Rattle.std.specs.List.{flat_map, list_any};
ghost use Rattle.um_model.specs.declared.deck.Column.{Column};
ghost use Rattle.um_model.specs.Values.{plain_column};
ghost use Rattle.um_text.specs.Texts.{line_rest};
ghost use Rattle.um_make.specs.NormalLines.{bound_words, bounds_data, column_bounds, ends_bounds, section_of, semi_bounds};
ghost use Rattle.um_make.specs.Numerals.{numeral};
ghost use Rattle.um_make.specs.Printed.{data_text, has_some, text_of};

use crate::numeral::put_last_numeral;
use um_deck::{Column, Deck, Kind};
use um_num::Memory;
use um_text::Text;

/// The scale of ends: they are kept in thousandths.
const END_SCALE: u8 = 3;

/// The section of the bounds; none where each column goes from 0 to infinity.
pub(crate) fn put_bounds(text: &mut Text, deck: &Deck) -> Result<(), Memory>
    ensures { OnOk result (text.new ≡ text.old ++ text_of (section_of (codes "BOUNDS") (bounds_data deck.now))) }
{
    let columns = deck.columns();
    if !has_bounds(columns) {
        return Ok(());
    }
    text.put(b"BOUNDS\n")?;
    put_each_bounds(text, columns)
}

fn has_bounds(columns: &[Column]) -> bool
    ensures { result ≡ list_any (λ (c : Column). has_some (column_bounds (plain_column c))) columns.now }
{
    columns.iter().any(has_bound)
}

fn has_bound(column: &Column) -> bool
    ensures { result ≡ has_some (column_bounds (plain_column column.now)) }
{
    match column.kind {
        Kind::Semi(_) => column.high.is_some(),
        Kind::Continuous | Kind::Integer => has_ends(column.low, column.high),
    }
}

/// Whether these ends are other than 0 and infinity.
fn has_ends(low: Option<i64>, high: Option<i64>) -> bool
    ensures { result ≡ has_some (ends_bounds [] low high) }
{
    match (low, high) {
        (Some(low), None) => low != 0,
        _ => true,
    }
}

/// The lines of the bounds of each column.
fn put_each_bounds(text: &mut Text, columns: &[Column]) -> Result<(), Memory>
    ensures { OnOk result (text.new ≡ text.old ++ data_text (map bound_words (flat_map column_bounds (map plain_column columns.now)))) }
{
    for column in columns {
        put_bounds_of(text, column)?;
    }
    Ok(())
}

fn put_bounds_of(text: &mut Text, column: &Column) -> Result<(), Memory>
    ensures { OnOk result (text.new ≡ text.old ++ data_text (map bound_words (column_bounds (plain_column column.now)))) }
{
    let name = column.name.as_bytes();
    match column.kind {
        Kind::Semi(threshold) => put_semi(text, name, threshold, column.high),
        Kind::Continuous | Kind::Integer => put_ends(text, name, column.low, column.high),
    }
}

/// The lines of a semicontinuous column: its threshold, and then its high end.
fn put_semi(text: &mut Text, column: &[u8], threshold: i64, high: Option<i64>) -> Result<(), Memory>
    ensures { OnOk result (text.new ≡ text.old ++ data_text (map bound_words (semi_bounds column.now threshold high))) }
{
    match high {
        None => Ok(()),
        Some(high) => {
            put_end(text, b"LO", column, threshold)?;
            put_end(text, b"SC", column, high)
        }
    }
}

/// The lines of the ends of a column that isn't semicontinuous; none for 0 and infinity.
fn put_ends(
    text: &mut Text,
    column: &[u8],
    low: Option<i64>,
    high: Option<i64>,
) -> Result<(), Memory>
    ensures { OnOk result (text.new ≡ text.old ++ data_text (map bound_words (ends_bounds column.now low high))) }
{
    match (low, high) {
        (None, None) => put_infinite(text, b"FR", column),
        (None, Some(high)) => {
            put_infinite(text, b"MI", column)?;
            put_end(text, b"UP", column, high)
        }
        (Some(low), None) => put_low(text, column, low),
        (Some(low), Some(high)) => {
            put_end(text, b"LO", column, low)?;
            put_end(text, b"UP", column, high)
        }
    }
}

/// The line of a low end below infinity, where it isn't 0.
fn put_low(text: &mut Text, column: &[u8], low: i64) -> Result<(), Memory>
    ensures { OnOk result (text.new ≡ text.old ++ data_text (map bound_words (ends_bounds column.now (Some low) None))) }
{
    if low == 0 {
        return Ok(());
    }
    put_end(text, b"LO", column, low)
}

/// The line of an end.
fn put_end(text: &mut Text, kind: &[u8], column: &[u8], end: i64) -> Result<(), Memory>
    ensures { OnOk result (text.new ≡ text.old ++ line_rest (kind.now ∷ codes "BND" ∷ column.now ∷ numeral 3 end ∷ [])) }
{
    text.word(kind)?;
    text.word(b"BND")?;
    text.word(column)?;
    put_last_numeral(text, END_SCALE, i128::from(end))
}

/// The line of an infinite end.
fn put_infinite(text: &mut Text, kind: &[u8], column: &[u8]) -> Result<(), Memory>
    ensures { OnOk result (text.new ≡ text.old ++ line_rest (kind.now ∷ codes "BND" ∷ column.now ∷ [])) }
{
    text.word(kind)?;
    text.word(b"BND")?;
    text.word(column)?;
    text.end_line()
}
