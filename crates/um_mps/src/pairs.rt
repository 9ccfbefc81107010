//! Rows with numbers, one or two in a line: what lines of COLUMNS, RHS and RANGES have.

ghost use Rattle.std.specs.Prelude.{◌≡◌, ◌≤◌, ◌+◌, [], Ok, Err, IfOk, MatchResult, OnOk, drop, map, length, slice_index_or};
ghost use Rattle.std.specs.Option.{option_copied};
ghost use Rattle.um_statements.specs.Tells.{Tells, TellsAll};
ghost use Rattle.um_statements.specs.WellSaid.{IsNumber};
ghost use Rattle.um_decktext.specs.Numbers.{number as number_of};
ghost use Rattle.um_decktext.specs.LineWords.{set_of_pairs};
ghost use Rattle.um_decktext.specs.LinesSay.{pairs as pairs_in, pairs_line};
ghost use Rattle.um_mps.specs.Behind.{behind_pairs};
ghost use Rattle.um_mps.specs.Pairs.{AreNumbers, MayTell, pairs_of, statement};

use crate::place::Place;
use um_maker::{DeckMaker, Fault};
use um_num::Decimal;
use um_setsec::{Few, few_of, number, word};
use um_text::Words;

/// A row's name and a number.
#[derive(Clone, Copy, Debug)]
pub struct Pair<'b> {
    pub row: &'b [u8],
    pub value: Decimal,
}

/// What a line has behind its first words.
#[derive(Clone, Copy, Debug)]
pub enum Pairs<'b> {
    One(Pair<'b>),
    Two(Pair<'b>, Pair<'b>),
}

/// What a pair says of a deck.
#[derive(Clone, Copy, PartialEq, Eq, Debug)]
pub enum Part {
    /// What the last column has in the row.
    Entry,
    /// The row's right-hand side.
    Side,
    /// The row's range.
    Range,
}

/// The pair whose row is the word at this place.
fn read_pair<'b>(words: &Words<'b>, at: usize) -> Result<Pair<'b>, Fault>
    requires { at ≤ 3 }
    ensures value { MatchResult result (λ p. (p.row.now ≡ slice_index_or words.now at []) × (number_of (slice_index_or words.now (at + 1) []) ≡ Ok p.value)) (λ fault. number_of (slice_index_or words.now (at + 1) []) ≡ Err fault) }
    ensures number { IfOk result (λ p. IsNumber p.value) }
{
    match number(word(words, at + 1)) {
        Ok(value) => Ok(Pair {
            row: word(words, at),
            value,
        }),
        Err(fault) => Err(fault),
    }
}

/// The pairs of the words from this place on.
pub fn read_pairs<'b>(words: &Words<'b>, from: usize) -> Result<Pairs<'b>, Fault>
    requires { from ≤ 1 }
    ensures value { MatchResult result (λ ps. pairs_in (drop from words.now) ≡ Ok (pairs_of ps)) (λ fault. pairs_in (drop from words.now) ≡ Err fault) }
    ensures numbers { IfOk result AreNumbers }
{
    if words.len() == from + 2 {
        let only = read_pair(words, from)?;
        return Ok(Pairs::One(only));
    }
    if words.len() == from + 4 {
        let first = read_pair(words, from)?;
        return match read_pair(words, from + 2) {
            Ok(second) => Ok(Pairs::Two(first, second)),
            Err(fault) => Err(fault),
        };
    }
    Err(Fault::BadWords)
}

/// Tells a maker of one pair.
fn tell_pair(maker: &mut DeckMaker, part: Part, pair: &Pair<'_>) -> Result<(), Fault>
    requires may { MayTell part maker.old }
    requires number { IsNumber pair.now.value }
    ensures told { Tells (statement part pair.now.row.now pair.now.value) maker.old result maker.new }
    ensures may { OnOk result (MayTell part maker.new) }
{
    match part {
        Part::Entry => maker.entry(pair.row, &pair.value),
        Part::Side => maker.rhs(pair.row, &pair.value),
        Part::Range => maker.range(pair.row, &pair.value),
    }
}

/// Tells a maker of one pair after the other.
pub fn tell_pairs(maker: &mut DeckMaker, part: Part, pairs: &Pairs<'_>) -> Result<(), Fault>
    requires may { MayTell part maker.old }
    requires numbers { AreNumbers pairs.now }
    ensures told { TellsAll (Ok (map (λ p. statement part p.0 p.1) (pairs_of pairs.now))) maker.old result maker.new }
    ensures may { OnOk result (MayTell part maker.new) }
{
    match pairs {
        Pairs::One(pair) => tell_pair(maker, part, pair),
        Pairs::Two(first, second) => {
            tell_pair(maker, part, first)?;
            tell_pair(maker, part, second)
        }
    }
}

/// The set that a line of RHS or RANGES names: one of an even number of words names none.
fn set_of_pairs<'b>(words: &Words<'b>) -> Option<&'b [u8]>
    ensures { option_copied result ≡ set_of_pairs words.now }
{
    match few_of(words) {
        Few::Three(set, _, _) => Some(set),
        Few::Five(set, _, _, _, _) => Some(set),
        _ => None,
    }
}

/// A line of RHS or RANGES.
pub fn pairs_line<'b>(
    maker: &mut DeckMaker,
    part: Part,
    place: &mut Place<'b>,
    words: &Words<'b>,
) -> Result<(), Fault>
    requires may { MayTell part maker.old }
    ensures told { TellsAll (pairs_line (statement part) place.old words.now) maker.old result maker.new }
    ensures place { OnOk result (place.new ≡ behind_pairs words.now place.old) }
{
    if words.len() < 2 || words.len() > 5 {
        return Err(Fault::BadWords);
    }
    let set = set_of_pairs(words);
    if !place.take_set(set) {
        return Ok(());
    }
    let pairs = read_pairs(words, usize::from(set.is_some()))?;
    tell_pairs(maker, part, &pairs)
}
