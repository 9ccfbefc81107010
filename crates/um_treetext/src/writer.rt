//! The writer: the text of an answer.

ghost use Rattle.std.specs.Prelude.{◌≡◌, ◌∷◌, ◌++◌, [], map, option_map, codes, decimal, IfOk, OnOk};
ghost use Rattle.std.specs.Fmt.{signed_decimal};
ghost use Rattle.um_model.specs.AnswerValues.{plain_answer, plain_ray};
ghost use Rattle.um_model.specs.Values.{plain_point};
ghost use Rattle.um_text.specs.NumberWords.{fraction_or_none};
ghost use Rattle.um_text.specs.Texts.{line_rest, line_text, lines_text};
ghost use Rattle.um_treetext.specs.TreeText.{deck_words, front_lines, point_words, ray_words, tree_text, value_lines, why_words};

use crate::causes::put_cause;
use crate::nodes::put_nodes;
use crate::words::{kind_word, name_word};
use std::alloc::Global;
use um_deck::Deck;
use um_model::{Answer, Point, Why};
use um_num::{Frac, List, Memory};
use um_text::Text;

/// The text of an answer for this deck, whatever the answer. The error is want of memory.
pub fn write(alloc: Global, deck: &Deck, answer: &Answer) -> Result<List<u8>, Memory>
    ensures { IfOk result (λ bytes. bytes.items ≡ tree_text deck.now (plain_answer answer.now)) }
{
    let mut text = Text::new(alloc);
    put_front(&mut text, deck, answer)?;
    put_values(&mut text, answer)?;
    put_nodes(&mut text, answer.tree.nodes())?;
    text.put(b"END\n")?;
    Ok(text.into_bytes())
}

/// The lines up to the cause.
fn put_front(text: &mut Text, deck: &Deck, answer: &Answer) -> Result<(), Memory>
    ensures { OnOk result (text.new ≡ text.old ++ lines_text (front_lines deck.now (plain_answer answer.now))) }
{
    text.put(b"UMPIRE TREE 1\n")?;
    put_deck(text, deck)?;
    put_tolerance(text, answer)?;
    text.line(b"ANSWER", &[kind_word(answer.kind)])?;
    put_why(text, answer.why)
}

/// The line of the deck: its name and its counts.
fn put_deck(text: &mut Text, deck: &Deck) -> Result<(), Memory>
    ensures { OnOk result (text.new ≡ text.old ++ line_text (deck_words deck.now)) }
{
    text.put(b"DECK")?;
    text.word(name_word(deck.name().as_bytes()))?;
    text.count_word(deck.rows().len() as u128)?;
    text.count_word(deck.columns().len() as u128)?;
    text.count_word(deck.sets().len() as u128)?;
    text.count_word(deck.arcs().len() as u128)?;
    text.end_line()
}

/// The line of the tolerance, in thousandths.
fn put_tolerance(text: &mut Text, answer: &Answer) -> Result<(), Memory>
    ensures { OnOk result (text.new ≡ text.old ++ line_text (codes "TOLERANCE" ∷ signed_decimal answer.now.tolerance ∷ [])) }
{
    text.put(b"TOLERANCE")?;
    text.whole_word(i128::from(answer.tolerance))?;
    text.end_line()
}

/// The line of the cause.
fn put_why(text: &mut Text, why: Option<Why>) -> Result<(), Memory>
    ensures { OnOk result (text.new ≡ text.old ++ line_text (codes "WHY" ∷ why_words why)) }
{
    text.put(b"WHY")?;
    put_cause(text, why)?;
    text.end_line()
}

/// The lines of what the answer says, and of how many nodes it has.
fn put_values(text: &mut Text, answer: &Answer) -> Result<(), Memory>
    ensures { OnOk result (text.new ≡ text.old ++ lines_text (value_lines (plain_answer answer.now))) }
{
    put_fraction(text, b"OBJECTIVE", answer.objective)?;
    put_fraction(text, b"BOUND", answer.bound)?;
    put_point(text, &answer.point)?;
    put_ray(text, &answer.ray)?;
    put_count(text, answer.tree.nodes().len())
}

/// The line of a fraction or `none`.
fn put_fraction(text: &mut Text, label: &[u8], fraction: Option<Frac>) -> Result<(), Memory>
    ensures { OnOk result (text.new ≡ text.old ++ line_text (label.now ∷ fraction_or_none fraction ∷ [])) }
{
    text.put(label)?;
    text.put(b" ")?;
    text.fraction_or_none(fraction)?;
    text.end_line()
}

/// The line of a point.
fn put_point(text: &mut Text, point: &Option<Point>) -> Result<(), Memory>
    ensures { OnOk result (text.new ≡ text.old ++ line_text (codes "POINT" ∷ point_words (option_map plain_point point.now))) }
{
    text.put(b"POINT")?;
    match point {
        None => text.put(b" none\n"),
        Some(point) => {
            text.whole_word(point.den)?;
            put_numbers(text, point.parts.as_slice())
        }
    }
}

/// The line of a ray.
fn put_ray(text: &mut Text, ray: &Option<List<i128>>) -> Result<(), Memory>
    ensures { OnOk result (text.new ≡ text.old ++ line_text (codes "RAY" ∷ ray_words (option_map plain_ray ray.now))) }
{
    text.put(b"RAY")?;
    match ray {
        None => text.put(b" none\n"),
        Some(parts) => put_numbers(text, parts.as_slice()),
    }
}

/// Numbers, each behind a blank, and the line's end.
fn put_numbers(text: &mut Text, numbers: &[i128]) -> Result<(), Memory>
    ensures { OnOk result (text.new ≡ text.old ++ line_rest (map signed_decimal numbers.now)) }
{
    for number in numbers {
        text.whole_word(*number)?;
    }
    text.end_line()
}

/// The line of how many nodes there are.
fn put_count(text: &mut Text, nodes: usize) -> Result<(), Memory>
    ensures { OnOk result (text.new ≡ text.old ++ line_text (codes "NODES" ∷ decimal nodes ∷ [])) }
{
    text.put(b"NODES")?;
    text.count_word(nodes as u128)?;
    text.end_line()
}
