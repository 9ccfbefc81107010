//! The report of an answer: what it says, in lines for a reader.

ghost use Rattle.std.specs.Prelude.{◌≡◌, ◌∷◌, ◌++◌, [], unsigned_abs, IfOk, OnOk, codes, if◌then◌else◌};
ghost use Rattle.um_laws.specs.Rational.{neg};
ghost use Rattle.um_model.specs.AnswerValues.{plain_answer};
ghost use Rattle.um_text.specs.NumberWords.{fraction_or_none};
ghost use Rattle.um_text.specs.Texts.{line_text, lines_text};
ghost use Rattle.um_report.specs.Reports.{head_lines, heading_words, report_text, stated, thousandths_word, IsReportable};

use crate::columns::{put_point, put_ray};
use crate::work::put_work;
use std::alloc::Global;
use um_deck::Deck;
use um_model::{Answer, AnswerKind};
use um_num::{Frac, List, Memory};
use um_text::Text;
use um_treetext::cause_word;

/// The report of an answer. The error is want of memory.
pub fn report(alloc: Global, deck: &Deck, answer: &Answer) -> Result<List<u8>, Memory>
    requires { IsReportable deck.now (plain_answer answer.now) }
    ensures { IfOk result (λ report. report.items ≡ report_text deck.now (plain_answer answer.now)) }
{
    let mut text = Text::new(alloc);
    put_head(&mut text, deck, answer)?;
    put_point(&mut text, deck, &answer.point)?;
    put_ray(&mut text, deck, &answer.ray)?;
    Ok(text.into_bytes())
}

/// The lines that every answer has.
fn put_head(text: &mut Text, deck: &Deck, answer: &Answer) -> Result<(), Memory>
    ensures { OnOk result (text.new ≡ text.old ++ lines_text (head_lines deck.now (plain_answer answer.now))) }
{
    put_heading(text, answer)?;
    put_stated(text, deck, b"objective", answer.objective)?;
    put_stated(text, deck, b"bound", answer.bound)?;
    put_tolerance(text, answer)?;
    put_work(text, &answer.tree)
}

/// The line of a kind; a search that stopped early says in one word why.
fn put_heading(text: &mut Text, answer: &Answer) -> Result<(), Memory>
    ensures { OnOk result (text.new ≡ text.old ++ line_text (heading_words answer.now.kind answer.now.why)) }
{
    match answer.kind {
        AnswerKind::Optimal => text.put(b"Optimal\n"),
        AnswerKind::Infeasible => text.put(b"Infeasible\n"),
        AnswerKind::Unbounded => text.put(b"Unbounded\n"),
        AnswerKind::Limit => text.line(b"Limit", &[cause_word(answer.why)]),
        AnswerKind::Overflow => text.line(b"Overflow", &[cause_word(answer.why)]),
    }
}

/// The line of a number of the objective, as the deck states it, or `none`.
fn put_stated(text: &mut Text, deck: &Deck, label: &[u8], value: Option<Frac>) -> Result<(), Memory>
    ensures { OnOk result (text.new ≡ text.old ++ line_text (label.now ∷ fraction_or_none (stated deck.now.maximise value) ∷ [])) }
{
    text.put(label)?;
    text.put(b" ")?;
    text.fraction_or_none(stated(deck.maximise(), value))?;
    text.end_line()
}

/// A number of the objective as the deck states it.
fn stated(maximise: bool, value: Option<Frac>) -> Option<Frac>
    ensures { result ≡ stated maximise value }
{
    let value = value?;
    Some(turned(maximise, &value))
}

/// The negative where the deck maximises.
fn turned(maximise: bool, value: &Frac) -> Frac
    ensures { result ≡ (if maximise then neg value.now else value.now) }
{
    if maximise { value.neg() } else { *value }
}

/// The line of the tolerance.
fn put_tolerance(text: &mut Text, answer: &Answer) -> Result<(), Memory>
    ensures { OnOk result (text.new ≡ text.old ++ line_text (codes "tolerance" ∷ thousandths_word (unsigned_abs answer.now.tolerance) ∷ [])) }
{
    text.put(b"tolerance ")?;
    put_thousandths(text, size(&answer.tolerance))?;
    text.end_line()
}

fn size(number: &i64) -> u64
    ensures { result ≡ unsigned_abs number.now }
{
    number.unsigned_abs()
}

/// Thousandths as a number with three decimals.
fn put_thousandths(text: &mut Text, thousandths: u64) -> Result<(), Memory>
    ensures { OnOk result (text.new ≡ text.old ++ thousandths_word thousandths) }
{
    let whole = thousandths / 1000;
    let tenths = thousandths / 100 % 10;
    let hundredths = thousandths / 10 % 10;
    let rest = thousandths % 10;
    text.count(u128::from(whole))?;
    text.put(b".")?;
    text.count(u128::from(tenths))?;
    text.count(u128::from(hundredths))?;
    text.count(u128::from(rest))
}
