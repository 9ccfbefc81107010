//! The lines up to the cause.

ghost use Rattle.std.specs.Prelude.{◌≡◌, [], length, MatchResult, Ok, Err};
ghost use Rattle.std.specs.List.{list_all};
ghost use Rattle.std.specs.Str.{bytes_eq};
ghost use Rattle.um_treetext.specs.Calls.{ReadsAs};
ghost use Rattle.um_treetext.specs.FrontLines.{count_said, deck_line, is_name_byte, kind_line, kind_said, name_said, tolerance_line, tolerance_said, version_line};
ghost use Rattle.um_treetext.specs.Reading.{front_read};

use crate::fault::{TreeFault, TreeWord};
use crate::reading::causes::read_why;
use crate::reading::lines::{TextLines, at_line};
use crate::reading::numbers::from_zero;
use crate::reading::words::LineWords;
use crate::words::name_word;
use um_deck::Deck;
use um_model::{AnswerKind, Why};

/// What the lines up to the cause say.
#[derive(Clone, Copy, PartialEq, Eq, Debug)]
pub struct Front {
    /// In thousandths.
    pub tolerance: i64,
    pub kind: AnswerKind,
    pub why: Option<Why>,
}

pub fn read_front(lines: &mut TextLines<'_>, deck: &Deck) -> Result<Front, TreeFault>
    ensures { ReadsAs (λ front. front) (front_read deck.now lines.old) result lines.new }
{
    at_line(1, read_version(lines.next(0)?))?;
    at_line(2, read_deck(lines.next(1)?, deck))?;
    let tolerance = at_line(3, read_tolerance(lines.next(2)?))?;
    let kind = at_line(4, read_kind(lines.next(3)?))?;
    let why = at_line(5, read_why(lines.next(4)?))?;
    Ok(Front {
        tolerance,
        kind,
        why,
    })
}

fn read_version(mut words: LineWords<'_>) -> Result<(), TreeWord>
    ensures { MatchResult result (λ _. version_line words.entry ≡ Ok []) (λ fault. version_line words.entry ≡ Err fault) }
{
    words.fixed(b"UMPIRE")?;
    words.fixed(b"TREE")?;
    words.fixed(b"1")?;
    words.end()
}

/// The words of the deck: its name and its counts.
fn read_deck(mut words: LineWords<'_>, deck: &Deck) -> Result<(), TreeWord>
    ensures { MatchResult result (λ _. deck_line deck.now words.entry ≡ Ok (length deck.now.arcs)) (λ fault. deck_line deck.now words.entry ≡ Err fault) }
{
    words.fixed(b"DECK")?;
    check_name(words.word()?, deck.name().as_bytes())?;
    check_count(words.word()?, deck.rows().len())?;
    check_count(words.word()?, deck.columns().len())?;
    check_count(words.word()?, deck.sets().len())?;
    check_count(words.word()?, deck.arcs().len())?;
    words.end()
}

fn check_name(word: &[u8], name: &[u8]) -> Result<(), TreeWord>
    ensures { MatchResult result (λ _. name_said name.now word.now ≡ Ok word.now) (λ fault. name_said name.now word.now ≡ Err fault) }
{
    if !is_one_word(name) {
        return Err(TreeWord::WrongDeck);
    }
    if !is_same(word, name_word(name)) {
        return Err(TreeWord::WrongDeck);
    }
    Ok(())
}

/// Whether a name can stand in a line as one word.
fn is_one_word(name: &[u8]) -> bool
    ensures { result ≡ list_all is_name_byte name.now }
{
    name.iter().all(|byte| is_name_byte(*byte))
}

fn is_same(word: &[u8], other: &[u8]) -> bool
    ensures { result ≡ bytes_eq word.now other.now }
{
    word == other
}

/// Whether a byte of a name can stand in a line as part of one word.
fn is_name_byte(byte: u8) -> bool
    ensures { result ≡ is_name_byte byte }
{
    byte != b' ' && byte != b'\t' && byte != b'\n'
}

fn check_count(word: &[u8], count: usize) -> Result<(), TreeWord>
    ensures { MatchResult result (λ _. count_said count word.now ≡ Ok count) (λ fault. count_said count word.now ≡ Err fault) }
{
    if from_zero(word)? == count as i128 {
        Ok(())
    } else {
        Err(TreeWord::WrongDeck)
    }
}

/// The tolerance, in thousandths.
fn read_tolerance(mut words: LineWords<'_>) -> Result<i64, TreeWord>
    ensures { result ≡ tolerance_line words.entry }
{
    words.fixed(b"TOLERANCE")?;
    let tolerance = thousandths(words.word()?)?;
    words.end()?;
    Ok(tolerance)
}

fn thousandths(word: &[u8]) -> Result<i64, TreeWord>
    ensures { result ≡ tolerance_said word.now }
{
    match i64::try_from(from_zero(word)?) {
        Ok(number) => Ok(number),
        Err(_) => Err(TreeWord::TooWide),
    }
}

fn read_kind(mut words: LineWords<'_>) -> Result<AnswerKind, TreeWord>
    ensures { result ≡ kind_line words.entry }
{
    words.fixed(b"ANSWER")?;
    let kind = kind_called(words.word()?)?;
    words.end()?;
    Ok(kind)
}

fn kind_called(word: &[u8]) -> Result<AnswerKind, TreeWord>
    ensures { result ≡ kind_said word.now }
{
    if word == b"optimal".as_slice() {
        Ok(AnswerKind::Optimal)
    } else if word == b"infeasible".as_slice() {
        Ok(AnswerKind::Infeasible)
    } else if word == b"unbounded".as_slice() {
        Ok(AnswerKind::Unbounded)
    } else if word == b"limit".as_slice() {
        Ok(AnswerKind::Limit)
    } else if word == b"overflow".as_slice() {
        Ok(AnswerKind::Overflow)
    } else {
        Err(TreeWord::BadWord)
    }
}
