//! Ordered sets and quadratic arcs.

ghost use Rattle.std.specs.Prelude.{◌≡◌, ◌∷◌, ◌++◌, [], ◌<◌, All, codes, length, map, OnOk};
ghost use Rattle.std.specs.List.{flat_map};
ghost use Rattle.um_model.specs.Values.{plain_column, plain_set};
ghost use Rattle.um_model.specs.declared.deck.OrderedSet.{OrderedSet};
ghost use Rattle.um_text.specs.Texts.{line_rest};
ghost use Rattle.um_make.specs.NormalLines.{arc_line_of, arc_words, arcs_data, column_name, member_words, section_of, set_data, set_word, sets_data};
ghost use Rattle.um_make.specs.Places.{HasPlaces, NameColumns};
ghost use Rattle.um_make.specs.Printed.{data_text, text_of};

use crate::numbers::in_sense;
use crate::numeral::put_last_numeral;
use um_deck::{Arc, Column, Deck, Member, OrderedSet, SetKind};
use um_num::Memory;
use um_text::Text;

/// The scale of weights: they are kept in millionths.
const WEIGHT_SCALE: u8 = 6;

/// The section of the ordered sets; none where there is none.
pub(crate) fn put_sets(text: &mut Text, deck: &Deck) -> Result<(), Memory>
    ensures { OnOk result (text.new ≡ text.old ++ text_of (section_of (codes "SOS") (sets_data deck.now))) }
{
    deck.known();
    if deck.sets().is_empty() {
        return Ok(());
    }
    text.put(b"SOS\n")?;
    put_each_set(text, deck.columns(), deck.sets())
}

/// The lines of sets.
fn put_each_set(text: &mut Text, columns: &[Column], sets: &[OrderedSet]) -> Result<(), Memory>
    requires { All (λ (s : OrderedSet). NameColumns (length columns.now) s.members.items) sets.now }
    ensures { OnOk result (text.new ≡ text.old ++ data_text (flat_map (set_data (map plain_column columns.now)) (map plain_set sets.now))) }
{
    for set in sets {
        put_set(text, columns, set)?;
    }
    Ok(())
}

/// The line of a set, and those of its members.
fn put_set(text: &mut Text, columns: &[Column], set: &OrderedSet) -> Result<(), Memory>
    requires { NameColumns (length columns.now) set.now.members.items }
    ensures { OnOk result (text.new ≡ text.old ++ data_text (set_data (map plain_column columns.now) (plain_set set.now))) }
{
    text.word(set_word(set.kind))?;
    text.word(set.name.as_bytes())?;
    text.end_line()?;
    put_members(text, columns, set.members.as_slice())
}

fn set_word(kind: SetKind) -> &'static [u8]
    ensures { result.now ≡ set_word kind }
{
    match kind {
        SetKind::S1 => b"S1",
        SetKind::S2 => b"S2",
    }
}

/// A line for each member.
fn put_members(text: &mut Text, columns: &[Column], members: &[Member]) -> Result<(), Memory>
    requires { NameColumns (length columns.now) members.now }
    ensures { OnOk result (text.new ≡ text.old ++ data_text (map (member_words (map plain_column columns.now)) members.now)) }
{
    for member in members {
        put_member(text, columns, member)?;
    }
    Ok(())
}

fn put_member(text: &mut Text, columns: &[Column], member: &Member) -> Result<(), Memory>
    requires { member.now.column < length columns.now }
    ensures { OnOk result (text.new ≡ text.old ++ line_rest (member_words (map plain_column columns.now) member.now)) }
{
    text.word(column_name(columns, member.column))?;
    put_last_numeral(text, WEIGHT_SCALE, i128::from(member.weight))
}

fn column_name(columns: &[Column], column: u32) -> &[u8]
    requires { column < length columns.now }
    ensures { result.now ≡ column_name (map plain_column columns.now) column }
{
    columns[column as usize].name.as_bytes()
}

/// The section of the arcs; none where there is none.
pub(crate) fn put_arcs(text: &mut Text, deck: &Deck) -> Result<(), Memory>
    ensures { OnOk result (text.new ≡ text.old ++ text_of (section_of (codes "ARCS") (arcs_data deck.now))) }
{
    deck.known();
    if deck.arcs().is_empty() {
        return Ok(());
    }
    text.put(b"ARCS\n")?;
    put_each_arc(text, deck, deck.arcs())
}

/// A line for each of these arcs of the deck.
fn put_each_arc(text: &mut Text, deck: &Deck, arcs: &[Arc]) -> Result<(), Memory>
    requires { All (HasPlaces deck.now) arcs.now }
    ensures { OnOk result (text.new ≡ text.old ++ data_text (map (arc_words deck.now) arcs.now)) }
{
    for arc in arcs {
        put_arc(text, deck, arc)?;
    }
    Ok(())
}

/// The line of an arc; one of the objective has the deck's sense.
fn put_arc(text: &mut Text, deck: &Deck, arc: &Arc) -> Result<(), Memory>
    requires { HasPlaces deck.now arc.now }
    ensures { OnOk result (text.new ≡ text.old ++ line_rest (arc_words deck.now arc.now)) }
{
    let column = column_name(deck.columns(), arc.column);
    match arc.row {
        None => {
            let value = in_sense(deck.maximise(), arc.value);
            put_pair(
                text,
                deck.objective_name().as_bytes(),
                column,
                deck.scale(),
                value,
            )
        }
        Some(row) => {
            let row = &deck.rows()[row as usize];
            put_pair(
                text,
                row.name.as_bytes(),
                column,
                row.scale,
                i128::from(arc.value),
            )
        }
    }
}

/// The line of an arc of a row and a column.
fn put_pair(
    text: &mut Text,
    row: &[u8],
    column: &[u8],
    scale: u8,
    value: i128,
) -> Result<(), Memory>
    ensures { OnOk result (text.new ≡ text.old ++ line_rest (arc_line_of column.now (row.now, scale, value))) }
{
    text.word(b"Q")?;
    text.word(row)?;
    text.word(column)?;
    put_last_numeral(text, scale, value)
}
