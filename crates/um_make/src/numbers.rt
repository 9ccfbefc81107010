//! Lines with one number of a row or of the objective.

ghost use Rattle.std.specs.Prelude.{◌≡◌, ◌∷◌, ◌++◌, [], OnOk};
ghost use Rattle.um_text.specs.Texts.{line_rest};
ghost use Rattle.um_make.specs.NormalLines.{in_sense, number_words};

use crate::numeral::put_last_numeral;
use um_deck::{Deck, Row};
use um_num::Memory;
use um_text::Text;

/// The line of a number of a row, scaled as the row is; the first word is the name of a column or of a set of pairs.
pub(crate) fn put_of_row(
    text: &mut Text,
    first: &[u8],
    row: &Row,
    value: i128,
) -> Result<(), Memory>
    ensures { OnOk result (text.new ≡ text.old ++ line_rest (number_words first.now (row.now.name, row.now.scale, value))) }
{
    put_number(text, first, row.name.as_bytes(), row.scale, value)
}

/// The line of a number of the objective, as the text has it and scaled as the objective is.
pub(crate) fn put_of_objective(
    text: &mut Text,
    first: &[u8],
    deck: &Deck,
    value: i128,
) -> Result<(), Memory>
    ensures { OnOk result (text.new ≡ text.old ++ line_rest (number_words first.now (deck.now.objective_name, deck.now.scale, value))) }
{
    put_number(
        text,
        first,
        deck.objective_name().as_bytes(),
        deck.scale(),
        value,
    )
}

/// The line of a number and of the row that has it.
pub(crate) fn put_number(
    text: &mut Text,
    first: &[u8],
    row: &[u8],
    scale: u8,
    value: i128,
) -> Result<(), Memory>
    ensures { OnOk result (text.new ≡ text.old ++ line_rest (number_words first.now (row.now, scale, value))) }
{
    text.word(first)?;
    text.word(row)?;
    put_last_numeral(text, scale, value)
}

/// A number of the objective, as the text has it: the negative of what a deck that maximises keeps.
pub(crate) fn in_sense(maximise: bool, number: i64) -> i128
    ensures { result ≡ in_sense maximise number }
{
    let number = i128::from(number);
    if maximise { -number } else { number }
}
