//! Right-hand sides and ranges.

ghost use Rattle.std.specs.Prelude.{◌≡◌, ◌++◌, codes, map, neg_ℤ, OnOk};
ghost use Rattle.std.specs.List.{flat_map, list_any};
ghost use Rattle.um_model.specs.declared.deck.Row.{Row};
ghost use Rattle.um_make.specs.NormalLines.{constant_numbers, first_side, in_sense, number_words, range_numbers, ranges_data, section_of, side_numbers, sides_data, width};
ghost use Rattle.um_make.specs.Printed.{data_text, has_some, text_of};

use crate::numbers::{in_sense, put_of_objective, put_of_row};
use um_deck::{Deck, Row};
use um_num::Memory;
use um_text::Text;

/// The section of the right-hand sides; none where all are 0.
pub(crate) fn put_sides(text: &mut Text, deck: &Deck) -> Result<(), Memory>
    ensures { OnOk result (text.new ≡ text.old ++ text_of (section_of (codes "RHS") (sides_data deck.now))) }
{
    if !has_sides(deck) {
        return Ok(());
    }
    text.put(b"RHS\n")?;
    put_row_sides(text, deck.rows())?;
    put_constant(text, deck)
}

/// Whether a right-hand side is other than 0.
#[tactic(auto, using(crate::proofs::Parts::some_sides))]
fn has_sides(deck: &Deck) -> bool
    ensures { result ≡ has_some (sides_data deck.now) }
{
    has_row_sides(deck.rows()) || has_constant(deck)
}

fn has_constant(deck: &Deck) -> bool
    ensures { result ≡ has_some (constant_numbers deck.now) }
{
    constant_side(deck) != 0
}

fn has_row_sides(rows: &[Row]) -> bool
    ensures { result ≡ list_any (λ (r : Row). has_some (side_numbers r)) rows.now }
{
    rows.iter().any(has_side)
}

fn has_side(row: &Row) -> bool
    ensures { result ≡ has_some (side_numbers row.now) }
{
    first_side(row) != 0
}

/// The line of each row whose right-hand side isn't 0.
fn put_row_sides(text: &mut Text, rows: &[Row]) -> Result<(), Memory>
    ensures { OnOk result (text.new ≡ text.old ++ data_text (map (number_words (codes "RHS")) (flat_map side_numbers rows.now))) }
{
    for row in rows {
        put_side(text, row)?;
    }
    Ok(())
}

fn put_side(text: &mut Text, row: &Row) -> Result<(), Memory>
    ensures { OnOk result (text.new ≡ text.old ++ data_text (map (number_words (codes "RHS")) (side_numbers row.now))) }
{
    let side = first_side(row);
    if side == 0 {
        return Ok(());
    }
    put_of_row(text, b"RHS", row, side)
}

/// The low side where there is one, else the high one.
fn first_side(row: &Row) -> i128
    ensures { result ≡ first_side row.now.low row.now.high }
{
    match (row.low, row.high) {
        (Some(low), _) => i128::from(low),
        (None, Some(high)) => i128::from(high),
        (None, None) => 0,
    }
}

/// The line of the right-hand side of the objective, where it isn't 0.
fn put_constant(text: &mut Text, deck: &Deck) -> Result<(), Memory>
    ensures { OnOk result (text.new ≡ text.old ++ data_text (map (number_words (codes "RHS")) (constant_numbers deck.now))) }
{
    let side = constant_side(deck);
    if side == 0 {
        return Ok(());
    }
    put_of_objective(text, b"RHS", deck, side)
}

/// The right-hand side of the objective: the negative of the constant, in the deck's sense.
fn constant_side(deck: &Deck) -> i128
    ensures { result ≡ neg_ℤ (in_sense deck.now.maximise deck.now.constant) }
{
    in_sense(!deck.maximise(), deck.constant())
}

/// The section of the ranges; none where no row has two different sides.
pub(crate) fn put_ranges(text: &mut Text, deck: &Deck) -> Result<(), Memory>
    ensures { OnOk result (text.new ≡ text.old ++ text_of (section_of (codes "RANGES") (ranges_data deck.now))) }
{
    let rows = deck.rows();
    if !has_ranges(rows) {
        return Ok(());
    }
    text.put(b"RANGES\n")?;
    put_row_ranges(text, rows)
}

fn has_ranges(rows: &[Row]) -> bool
    ensures { result ≡ list_any (λ (r : Row). has_some (range_numbers r)) rows.now }
{
    rows.iter().any(has_range)
}

fn has_range(row: &Row) -> bool
    ensures { result ≡ has_some (range_numbers row.now) }
{
    width(row) != 0
}

/// The line of each row with two different sides.
fn put_row_ranges(text: &mut Text, rows: &[Row]) -> Result<(), Memory>
    ensures { OnOk result (text.new ≡ text.old ++ data_text (map (number_words (codes "RNG")) (flat_map range_numbers rows.now))) }
{
    for row in rows {
        put_range(text, row)?;
    }
    Ok(())
}

fn put_range(text: &mut Text, row: &Row) -> Result<(), Memory>
    ensures { OnOk result (text.new ≡ text.old ++ data_text (map (number_words (codes "RNG")) (range_numbers row.now))) }
{
    let range = width(row);
    if range == 0 {
        return Ok(());
    }
    put_of_row(text, b"RNG", row, range)
}

/// How far apart the sides of a row are; 0 where it has one alone.
fn width(row: &Row) -> i128
    ensures { result ≡ width row.now.low row.now.high }
{
    match (row.low, row.high) {
        (Some(low), Some(high)) => i128::from(high) - i128::from(low),
        _ => 0,
    }
}
