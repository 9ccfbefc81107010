//! The lines of nodes.

ghost use Rattle.std.specs.List.{after_first, before_first};
ghost use Rattle.std.specs.Prelude.{◌≡◌, ◌^◌, ◌<◌, [], ℤ, MatchResult, OnOk, false, true, unsigned_abs};
ghost use Rattle.um_multipliers.specs.PlainMultipliers.{plain_multipliers};
ghost use Rattle.um_model.specs.AnswerValues.{plain_node, plain_what};
ghost use Rattle.um_model.specs.declared.branch.Branch.TheVariants as branch;
ghost use Rattle.um_treetext.specs.Calls.{Stands, Takes, TakesAs, TellsAs};
ghost use Rattle.um_treetext.specs.NodeLines.{became_said, column_said, cut_said, has_one_colon, is_colon, multipliers_said, node_line, price_of, price_said, prices_said, row_said, semi_said, set_said, solved_said, what_called, what_said, zero_word};
ghost use Rattle.um_treetext.specs.Words.{from_zero_word, taking};

use crate::fault::TreeWord;
use crate::reading::numbers::{
    Numeral, from_zero, index, numeral_of, short_number, sides_of, steps,
};
use crate::reading::words::LineWords;
use std::alloc::Global;
use um_deck::Deck;
use um_model::{Branch, Multipliers, Node, Price, Solved, What};
use um_num::List;

/// The node that a line says.
pub fn read_node(alloc: Global, mut words: LineWords<'_>, deck: &Deck) -> Result<Node, TreeWord>
    ensures { TellsAs plain_node (node_line deck.now words.entry) result }
{
    let solved = read_solved(&mut words)?;
    let what = read_what(alloc, &mut words, deck)?;
    words.end()?;
    Ok(Node { solved, what })
}

/// When the node was solved, and at what cost; two hyphens where it was not.
fn read_solved(words: &mut LineWords<'_>) -> Result<Option<Solved>, TreeWord>
    ensures { Takes (solved_said words.old) result words.new }
{
    if words.is_next(b"END") {
        return Err(TreeWord::BadWord);
    }
    if words.is_next(b"-") {
        words.skip();
        words.fixed(b"-")?;
        return Ok(None);
    }
    let number = index(words.word()?)?;
    let pivots = steps(words.word()?)?;
    Ok(Some(Solved { number, pivots }))
}

/// The word of what became of a node.
#[derive(Clone, Copy, PartialEq, Eq, Debug)]
pub enum WhatWord {
    Int,
    Cut,
    Semi,
    One,
    Two,
    Bounded,
    Empty,
    Void,
    Open,
}

/// What became of a node.
fn read_what(alloc: Global, words: &mut LineWords<'_>, deck: &Deck) -> Result<What, TreeWord>
    ensures { TakesAs plain_what (became_said deck.now words.old) result words.new }
{
    let word = what_called(words.word()?)?;
    read_behind(alloc, words, deck, word)
}

/// What became of a node, behind the word for it.
fn read_behind(
    alloc: Global,
    words: &mut LineWords<'_>,
    deck: &Deck,
    word: WhatWord,
) -> Result<What, TreeWord>
    ensures { TakesAs plain_what (what_said deck.now word words.old) result words.new }
{
    let rows = deck.rows().len();
    match word {
        WhatWord::Bounded => Ok(What::Bounded(read_multipliers(alloc, words, rows)?)),
        WhatWord::Empty => Ok(What::Empty(read_empty(alloc, words, rows)?)),
        WhatWord::Open => Ok(What::OpenLeaf(read_multipliers(alloc, words, rows)?)),
        WhatWord::Void => Ok(What::Void(read_void(words, deck.columns().len())?)),
        WhatWord::Int => Ok(What::Split(read_int(words)?)),
        WhatWord::Cut => Ok(What::Split(read_cut(words)?)),
        WhatWord::Semi => Ok(What::Split(read_semi(words)?)),
        WhatWord::One => Ok(What::Split(read_one(words)?)),
        WhatWord::Two => Ok(What::Split(read_two(words)?)),
    }
}

/// The column whose low end is above its high end.
fn read_void(words: &mut LineWords<'_>, columns: usize) -> Result<u32, TreeWord>
    ensures { Takes (taking (column_said columns) words.old) result words.new }
{
    column_of(words.word()?, columns)
}

fn read_semi(words: &mut LineWords<'_>) -> Result<Branch, TreeWord>
    ensures { Takes (semi_said words.old) result words.new }
{
    let column = index(words.word()?)?;
    Ok(Branch::Semi { column })
}

fn what_called(word: &[u8]) -> Result<WhatWord, TreeWord>
    ensures { result ≡ what_called word.now }
{
    if word == b"int".as_slice() {
        Ok(WhatWord::Int)
    } else if word == b"cut".as_slice() {
        Ok(WhatWord::Cut)
    } else if word == b"semi".as_slice() {
        Ok(WhatWord::Semi)
    } else if word == b"one".as_slice() {
        Ok(WhatWord::One)
    } else if word == b"two".as_slice() {
        Ok(WhatWord::Two)
    } else if word == b"bounded".as_slice() {
        Ok(WhatWord::Bounded)
    } else if word == b"empty".as_slice() {
        Ok(WhatWord::Empty)
    } else if word == b"void".as_slice() {
        Ok(WhatWord::Void)
    } else if word == b"open".as_slice() {
        Ok(WhatWord::Open)
    } else {
        Err(TreeWord::BadWord)
    }
}

fn read_int(words: &mut LineWords<'_>) -> Result<Branch, TreeWord>
    ensures { Takes (cut_said branch.Int words.old) result words.new }
{
    let column = index(words.word()?)?;
    let below = short_number(words.word()?)?;
    Ok(Branch::Int { column, below })
}

fn read_cut(words: &mut LineWords<'_>) -> Result<Branch, TreeWord>
    ensures { Takes (cut_said branch.Cut words.old) result words.new }
{
    let column = index(words.word()?)?;
    let at = short_number(words.word()?)?;
    Ok(Branch::Cut { column, at })
}

fn read_one(words: &mut LineWords<'_>) -> Result<Branch, TreeWord>
    ensures { Takes (set_said branch.One words.old) result words.new }
{
    let set = index(words.word()?)?;
    let at = index(words.word()?)?;
    Ok(Branch::One { set, at })
}

fn read_two(words: &mut LineWords<'_>) -> Result<Branch, TreeWord>
    ensures { Takes (set_said branch.Two words.old) result words.new }
{
    let set = index(words.word()?)?;
    let at = index(words.word()?)?;
    Ok(Branch::Two { set, at })
}

/// A column of the deck, which has this many.
fn column_of(word: &[u8], columns: usize) -> Result<u32, TreeWord>
    ensures { result ≡ column_said columns word.now }
{
    let column = index(word)?;
    if column as usize >= columns {
        return Err(TreeWord::BadNode);
    }
    Ok(column)
}

/// The objective's multiplier, and those of rows.
fn read_multipliers(
    alloc: Global,
    words: &mut LineWords<'_>,
    rows: usize,
) -> Result<Multipliers, TreeWord>
    ensures { TakesAs plain_multipliers (multipliers_said from_zero_word rows words.old) result words.new }
{
    let y0 = from_zero(words.word()?)?;
    let rows = read_prices(alloc, words, rows)?;
    Ok(Multipliers { y0, rows })
}

/// The same, where the objective's is 0.
fn read_empty(
    alloc: Global,
    words: &mut LineWords<'_>,
    rows: usize,
) -> Result<Multipliers, TreeWord>
    ensures { TakesAs plain_multipliers (multipliers_said zero_word rows words.old) result words.new }
{
    let y0 = zero(words.word()?)?;
    let rows = read_prices(alloc, words, rows)?;
    Ok(Multipliers { y0, rows })
}

/// The number 0.
fn zero(word: &[u8]) -> Result<i128, TreeWord>
    ensures { result ≡ zero_word word.now }
{
    let number = from_zero(word)?;
    if number != 0 {
        return Err(TreeWord::BadNode);
    }
    Ok(number)
}

/// The multipliers of rows that rise, up to the end of the line.
fn read_prices(
    alloc: Global,
    words: &mut LineWords<'_>,
    rows: usize,
) -> Result<List<Price>, TreeWord>
    ensures prices { TellsAs (λ prices. prices.items) (prices_said rows 0 words.old) result }
    ensures over { OnOk result (words.new ≡ []) }
{
    let mut prices = List::new(alloc);
    let mut next = 0;
    'prices: while !words.is_over() {
        let price = price_of(words.word()?, rows, next)?;
        next = u64::from(price.row) + 1;
        prices.push(price)?;
    }
    Ok(prices)
}

/// The multiplier of a row of the deck from the next one on.
fn price_of(word: &[u8], rows: usize, next: u64) -> Result<Price, TreeWord>
    ensures { result ≡ price_said rows next word.now }
{
    let (row, value) = price_sides(word)?;
    let (row, value) = (numeral_of(row)?, numeral_of(value)?);
    let row = row_of(row)?;
    match value {
        Numeral::Small(value) => price_within(row, value, rows, next),
        Numeral::Large { .. } => Err(TreeWord::TooWide),
    }
}

/// What stands before and behind the one colon.
fn price_sides(word: &[u8]) -> Result<(&[u8], &[u8]), TreeWord>
    ensures { MatchResult result (λ sides. (has_one_colon word.now ≡ true) × (sides.0.now ≡ before_first is_colon word.now) × (sides.1.now ≡ after_first is_colon word.now)) (λ fault. (fault ≡ TreeWord.BadWord) × (has_one_colon word.now ≡ false)) }
{
    match sides_of(word, b':') {
        Some((row, value)) => {
            if sides_of(value, b':').is_some() {
                return Err(TreeWord::BadWord);
            }
            Ok((row, value))
        }
        None => Err(TreeWord::BadWord),
    }
}

/// A row from 0 on of its type.
fn row_of(row: Numeral) -> Result<u32, TreeWord>
    ensures { (r : ℤ) → Stands row r → result ≡ row_said r }
{
    match row {
        Numeral::Small(number) => row_number(number),
        Numeral::Large { negative: true } => Err(TreeWord::BadNumber),
        Numeral::Large { negative: false } => Err(TreeWord::TooWide),
    }
}

fn row_number(number: i128) -> Result<u32, TreeWord>
    ensures { result ≡ row_said number }
{
    if number < 0 {
        return Err(TreeWord::BadNumber);
    }
    match u32::try_from(number) {
        Ok(row) => Ok(row),
        Err(_) => Err(TreeWord::TooWide),
    }
}

/// The multiplier of this row, where the row is from the next one on and in the deck, and the multiplier is not 0.
fn price_within(row: u32, value: i128, rows: usize, next: u64) -> Result<Price, TreeWord>
    requires small { unsigned_abs value < 2 ^ 127 }
    ensures { result ≡ price_of rows next (row, value) }
{
    if u64::from(row) < next || value == 0 || row as usize >= rows {
        return Err(TreeWord::BadNode);
    }
    Ok(Price { row, value })
}
