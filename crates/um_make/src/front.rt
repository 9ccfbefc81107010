//! The name of the deck, its sense, and its rows.

ghost use Rattle.std.specs.Prelude.{◌≡◌, ◌∷◌, ◌++◌, [], Some, codes, map, OnOk};
ghost use Rattle.um_text.specs.Texts.{line_rest, line_text};
ghost use Rattle.um_make.specs.NormalLines.{front_lines, kind_word, row_words, rows_data, sense_lines, sides_kind, title_words};
ghost use Rattle.um_make.specs.Printed.{data_text, text_of};

use um_deck::{Deck, Row};
use um_num::Memory;
use um_text::Text;

/// The lines up to the last row.
pub(crate) fn put_front(text: &mut Text, deck: &Deck) -> Result<(), Memory>
    ensures { OnOk result (text.new ≡ text.old ++ text_of (front_lines deck.now)) }
{
    put_title(text, deck.name().as_bytes())?;
    put_sense(text, deck.maximise())?;
    text.put(b"ROWS\n")?;
    put_objective(text, deck)?;
    put_rows(text, deck.rows())
}

/// The heading with the name of the deck, which is left out where it is empty.
fn put_title(text: &mut Text, name: &[u8]) -> Result<(), Memory>
    ensures { OnOk result (text.new ≡ text.old ++ line_text (title_words name.now)) }
{
    text.put(b"NAME")?;
    if name.is_empty() {
        return text.end_line();
    }
    text.word(name)?;
    text.end_line()
}

/// The line of a deck that maximises.
fn put_sense(text: &mut Text, maximise: bool) -> Result<(), Memory>
    ensures { OnOk result (text.new ≡ text.old ++ text_of (sense_lines maximise)) }
{
    if maximise {
        return text.put(b"OBJSENSE MAX\n");
    }
    Ok(())
}

/// The line of the objective.
fn put_objective(text: &mut Text, deck: &Deck) -> Result<(), Memory>
    ensures { OnOk result (text.new ≡ text.old ++ line_rest (codes "N" ∷ deck.now.objective_name ∷ [])) }
{
    text.word(b"N")?;
    text.word(deck.objective_name().as_bytes())?;
    text.end_line()
}

/// A line for each row.
fn put_rows(text: &mut Text, rows: &[Row]) -> Result<(), Memory>
    ensures { OnOk result (text.new ≡ text.old ++ data_text (map row_words rows.now)) }
{
    for row in rows {
        put_row(text, row)?;
    }
    Ok(())
}

fn put_row(text: &mut Text, row: &Row) -> Result<(), Memory>
    ensures { OnOk result (text.new ≡ text.old ++ line_rest (row_words row.now)) }
{
    text.word(kind_word(row.low, row.high))?;
    text.word(row.name.as_bytes())?;
    text.end_line()
}

/// The word of a row with these sides.
fn kind_word(low: Option<i64>, high: Option<i64>) -> &'static [u8]
    ensures { result.now ≡ kind_word (sides_kind low high) }
{
    match (low, high) {
        (None, _) => b"L",
        (Some(_), None) => b"G",
        (Some(low), Some(high)) => both_word(low, high),
    }
}

/// The word of a row with two sides: where they differ, the row is a range above the low one.
fn both_word(low: i64, high: i64) -> &'static [u8]
    ensures { result.now ≡ kind_word (sides_kind (Some low) (Some high)) }
{
    if low == high { b"E" } else { b"G" }
}
