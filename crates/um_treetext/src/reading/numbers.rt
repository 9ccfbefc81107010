//! The words that stand for numbers.

ghost use Rattle.std.specs.Prelude.{◌≡◌, ◌^◌, ◌<◌, ◌≤ℤ◌, ℤ, unsigned_abs, pos, true, false, length, codes, IfOk, IfSome, MatchOption, MatchResult, Ok, Err};
ghost use Rattle.std.specs.Str.{bytes_eq};
ghost use Rattle.std.specs.List.{after_first, before_first, list_any, position};
ghost use Rattle.um_text.specs.Numerals.{has_minus};
ghost use Rattle.um_treetext.specs.Calls.{IsNumeral, IsSmallInRange, Stands, is_byte};
ghost use Rattle.um_treetext.specs.FrontLines.{den_said};
ghost use Rattle.um_treetext.specs.Words.{fraction_or_none_said, fraction_said, from_zero_word, natural_word, numeral, parts_word, reduced, short_word, whole_word};

use crate::fault::TreeWord;
use um_num::{Frac, gcd};
use um_text::{NumberFault, whole};

/// The number of a numeral.
#[derive(Clone, Copy, PartialEq, Eq, Debug)]
pub enum Numeral {
    /// A number in range.
    Small(i128),
    /// A number out of range, below 0 or above.
    Large { negative: bool },
}

pub fn numeral_of(word: &[u8]) -> Result<Numeral, TreeWord>
    ensures numeral { MatchResult result (IsNumeral word.now) (λ fault. numeral word.now ≡ Err fault) }
    ensures range { IfOk result IsSmallInRange }
{
    match whole(word) {
        Ok(number) => Ok(Numeral::Small(number)),
        Err(NumberFault::TooWide) => Ok(Numeral::Large {
            negative: has_minus(word),
        }),
        Err(NumberFault::NotNumber) => Err(TreeWord::BadNumber),
    }
}

fn has_minus(word: &[u8]) -> bool
    ensures { result ≡ has_minus word.now }
{
    match word.first() {
        Some(first) => *first == b'-',
        None => false,
    }
}

/// A number from 0 on.
pub fn from_zero(word: &[u8]) -> Result<i128, TreeWord>
    ensures value { result ≡ from_zero_word word.now }
    ensures range { IfOk result (λ number. unsigned_abs number < 2 ^ 127) }
{
    match numeral_of(word)? {
        Numeral::Small(number) => not_below_zero(number),
        Numeral::Large { negative: true } => Err(TreeWord::BadNumber),
        Numeral::Large { negative: false } => Err(TreeWord::TooWide),
    }
}

fn not_below_zero(number: i128) -> Result<i128, TreeWord>
    ensures { MatchResult result (λ same. (same ≡ number) × (pos 0 ≤ℤ number)) (λ fault. (fault ≡ TreeWord.BadNumber) × (¬ (pos 0 ≤ℤ number))) }
{
    if number < 0 {
        Err(TreeWord::BadNumber)
    } else {
        Ok(number)
    }
}

/// The number of a node, a column or the like.
pub fn index(word: &[u8]) -> Result<u32, TreeWord>
    ensures { result ≡ natural_word (2 ^ 32) word.now }
{
    match u32::try_from(from_zero(word)?) {
        Ok(number) => Ok(number),
        Err(_) => Err(TreeWord::TooWide),
    }
}

/// The number of a step, or of pivots.
pub fn steps(word: &[u8]) -> Result<u64, TreeWord>
    ensures { result ≡ natural_word (2 ^ 64) word.now }
{
    match u64::try_from(from_zero(word)?) {
        Ok(number) => Ok(number),
        Err(_) => Err(TreeWord::TooWide),
    }
}

/// A number in range.
pub fn whole_number(word: &[u8]) -> Result<i128, TreeWord>
    ensures value { result ≡ whole_word word.now }
    ensures range { IfOk result (λ number. unsigned_abs number < 2 ^ 127) }
{
    match numeral_of(word)? {
        Numeral::Small(number) => Ok(number),
        Numeral::Large { .. } => Err(TreeWord::TooWide),
    }
}

/// A number of 64 bits.
pub fn short_number(word: &[u8]) -> Result<i64, TreeWord>
    ensures { result ≡ short_word word.now }
{
    match i64::try_from(whole_number(word)?) {
        Ok(number) => Ok(number),
        Err(_) => Err(TreeWord::TooWide),
    }
}

/// What a point's parts are over, from 1 on.
pub fn den(word: &[u8]) -> Result<i128, TreeWord>
    ensures { result ≡ den_said word.now }
{
    match numeral_of(word)? {
        Numeral::Small(number) => above_zero(number),
        Numeral::Large { negative: true } => Err(TreeWord::BadWord),
        Numeral::Large { negative: false } => Err(TreeWord::TooWide),
    }
}

fn above_zero(number: i128) -> Result<i128, TreeWord>
    ensures { MatchResult result (λ same. (same ≡ number) × (pos 1 ≤ℤ number)) (λ fault. (fault ≡ TreeWord.BadWord) × (¬ (pos 1 ≤ℤ number))) }
{
    if number < 1 {
        Err(TreeWord::BadWord)
    } else {
        Ok(number)
    }
}

/// A fraction, or the word `none`.
pub fn fraction_or_none(word: &[u8]) -> Result<Option<Frac>, TreeWord>
    ensures { result ≡ fraction_or_none_said word.now }
{
    if is_none_word(word) {
        return Ok(None);
    }
    Ok(Some(fraction(word)?))
}

fn is_none_word(word: &[u8]) -> bool
    ensures { result ≡ bytes_eq word.now (codes "none") }
{
    word == b"none".as_slice()
}

/// A whole number, or two with a slash between that are in lowest terms over at least 2.
fn fraction(word: &[u8]) -> Result<Frac, TreeWord>
    ensures { result ≡ fraction_said word.now }
{
    match sides_of(word, b'/') {
        Some((num, den)) => reduced(numeral_of(num)?, numeral_of(den)?),
        None => Ok(Frac::new(whole_number(word)?, 1)),
    }
}

/// The fraction of two parts in lowest terms, the lower one from 2 on.
fn reduced(num: Numeral, den: Numeral) -> Result<Frac, TreeWord>
    requires num_small { IsSmallInRange num }
    requires den_small { IsSmallInRange den }
    ensures { (n d : ℤ) → Stands num n → Stands den d → result ≡ reduced n d }
{
    match den {
        Numeral::Small(den) => over(num, den),
        Numeral::Large { negative: true } => Err(TreeWord::BadNumber),
        Numeral::Large { negative: false } => Err(TreeWord::TooWide),
    }
}

/// The fraction over a number in range.
fn over(num: Numeral, den: i128) -> Result<Frac, TreeWord>
    requires num_small { IsSmallInRange num }
    requires den_small { unsigned_abs den < 2 ^ 127 }
    ensures { (n : ℤ) → Stands num n → result ≡ reduced n den }
{
    if den < 2 {
        return Err(TreeWord::BadNumber);
    }
    match num {
        Numeral::Small(num) => lowest(num, den),
        Numeral::Large { .. } => Err(TreeWord::TooWide),
    }
}

fn lowest(num: i128, den: i128) -> Result<Frac, TreeWord>
    requires num_small { unsigned_abs num < 2 ^ 127 }
    requires den_small { unsigned_abs den < 2 ^ 127 }
    requires above { pos 2 ≤ℤ den }
    ensures { result ≡ reduced num den }
{
    if gcd(num, den) != 1 {
        return Err(TreeWord::BadNumber);
    }
    Ok(Frac::new(num, den))
}

/// What stands before and behind the first of these bytes.
pub fn sides_of(word: &[u8], separator: u8) -> Option<(&[u8], &[u8])>
    ensures { MatchOption result (list_any (is_byte separator) word.now ≡ false) (λ sides. (list_any (is_byte separator) word.now ≡ true) × (sides.0.now ≡ before_first (is_byte separator) word.now) × (sides.1.now ≡ after_first (is_byte separator) word.now)) }
{
    match place_of(word, separator) {
        Some(at) => Some((&word[..at], &word[at + 1..])),
        None => None,
    }
}

fn place_of(word: &[u8], separator: u8) -> Option<usize>
    ensures place { result ≡ position (is_byte separator) word.now }
    ensures within { IfSome result (λ at. at < length word.now) }
{
    word.iter().position(|byte| *byte == separator)
}
