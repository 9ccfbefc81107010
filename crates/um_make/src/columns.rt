//! The lines of the columns: costs and entries.

ghost use Rattle.std.specs.Prelude.{◌≡◌, ◌∷◌, ◌++◌, [], ◌<◌, All, length, map, pos, OnOk};
ghost use Rattle.std.specs.List.{flat_map};
ghost use Rattle.um_model.specs.Values.{plain_column};
ghost use Rattle.um_model.specs.declared.deck.Column.{Column};
ghost use Rattle.um_text.specs.Texts.{line_rest};
ghost use Rattle.um_make.specs.NormalLines.{column_data, columns_lines, entry_number, marker_words, number_words, numbers_of, unless_zero};
ghost use Rattle.um_make.specs.Places.{NameRows};
ghost use Rattle.um_make.specs.Printed.{data_text, text_of};

use crate::numbers::{in_sense, put_number, put_of_objective, put_of_row};
use um_deck::{Column, Deck, Entry, Kind, Row};
use um_num::Memory;
use um_text::Text;

/// The section of the columns.
pub(crate) fn put_columns(text: &mut Text, deck: &Deck) -> Result<(), Memory>
    ensures { OnOk result (text.new ≡ text.old ++ text_of (columns_lines deck.now)) }
{
    deck.known();
    text.put(b"COLUMNS\n")?;
    put_each_column(text, deck, deck.columns())
}

/// The lines of columns of the deck.
fn put_each_column(text: &mut Text, deck: &Deck, columns: &[Column]) -> Result<(), Memory>
    requires { All (λ (c : Column). NameRows (length deck.now.rows) c.entries.items) columns.now }
    ensures { OnOk result (text.new ≡ text.old ++ data_text (flat_map (column_data deck.now) (map plain_column columns.now))) }
{
    for column in columns {
        put_column(text, deck, column)?;
    }
    Ok(())
}

/// The lines of a column; those of an integer column stand between two markers.
fn put_column(text: &mut Text, deck: &Deck, column: &Column) -> Result<(), Memory>
    requires { NameRows (length deck.now.rows) column.now.entries.items }
    ensures { OnOk result (text.new ≡ text.old ++ data_text (column_data deck.now (plain_column column.now))) }
{
    match column.kind {
        Kind::Integer => {
            put_marker(text, b"'INTORG'")?;
            put_numbers(text, deck, column)?;
            put_marker(text, b"'INTEND'")
        }
        Kind::Continuous | Kind::Semi(_) => put_numbers(text, deck, column),
    }
}

fn put_marker(text: &mut Text, end: &[u8]) -> Result<(), Memory>
    ensures { OnOk result (text.new ≡ text.old ++ line_rest (marker_words end.now)) }
{
    text.word(b"M")?;
    text.word(b"'MARKER'")?;
    text.word(end)?;
    text.end_line()
}

/// The cost of a column and its entries. One that has neither gets a cost of 0, since it has no line else.
fn put_numbers(text: &mut Text, deck: &Deck, column: &Column) -> Result<(), Memory>
    requires { NameRows (length deck.now.rows) column.now.entries.items }
    ensures { OnOk result (text.new ≡ text.old ++ data_text (map (number_words column.now.name) (numbers_of deck.now (plain_column column.now)))) }
{
    let name = column.name.as_bytes();
    let cost = in_sense(deck.maximise(), column.cost);
    if cost == 0 && column.entries.is_empty() {
        return put_number(text, name, deck.objective_name().as_bytes(), 0, 0);
    }
    put_cost(text, deck, name, cost)?;
    put_entries(text, deck.rows(), name, column.entries.as_slice())
}

/// The line of a cost, where it isn't 0.
fn put_cost(text: &mut Text, deck: &Deck, name: &[u8], cost: i128) -> Result<(), Memory>
    ensures { OnOk result (text.new ≡ text.old ++ data_text (map (number_words name.now) (unless_zero (deck.now.objective_name, deck.now.scale, cost)))) }
{
    if cost == 0 {
        return Ok(());
    }
    put_of_objective(text, name, deck, cost)
}

/// A line for each entry.
fn put_entries(text: &mut Text, rows: &[Row], name: &[u8], entries: &[Entry]) -> Result<(), Memory>
    requires { NameRows (length rows.now) entries.now }
    ensures { OnOk result (text.new ≡ text.old ++ data_text (map (number_words name.now) (map (entry_number rows.now) entries.now))) }
{
    for entry in entries {
        put_entry(text, rows, name, entry)?;
    }
    Ok(())
}

fn put_entry(text: &mut Text, rows: &[Row], name: &[u8], entry: &Entry) -> Result<(), Memory>
    requires { entry.now.row < length rows.now }
    ensures { OnOk result (text.new ≡ text.old ++ line_rest (number_words name.now (entry_number rows.now entry.now))) }
{
    let row = &rows[entry.row as usize];
    put_of_row(text, name, row, i128::from(entry.value))
}
