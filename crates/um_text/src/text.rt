//! A text that grows, word by word.

ghost use Rattle.std.specs.Prelude.{◌≡◌, ◌∷◌, ◌++◌, [], map, decimal, OnOk, OnErr};
ghost use Rattle.std.specs.Fmt.{signed_decimal};
ghost use Rattle.um_text.specs.NumberWords.{fraction_word, fraction_or_none};
ghost use Rattle.um_text.specs.Texts.{GoesOn, behind_blanks, line_text};

use crate::written::write_whole;
use std::alloc::Global;
use std::marker::Model;
use um_num::{Frac, List, Memory};

/// The bytes that were put so far. After a refusal what stood before is still its front, and behind it stands a front
/// of what was due.
#[derive(Drop)]
pub struct Text {
    alloc: Global,
    bytes: List<u8>,
}

impl Model for Text {
    ghost use Rattle.std.specs.Prelude.{ℕ, List};

    ghost Value = { List ℕ };

    ghost view = { λ text. text.bytes.items };
}

impl Text {
    /// The empty text. Takes no memory.
    pub fn new(alloc: Global) -> Text
        ensures { result ≡ [] }
    {
        Text {
            alloc,
            bytes: List::new(alloc),
        }
    }

    /// The whole text. Takes no memory.
    pub fn into_bytes(self) -> List<u8>
        ensures { result.items ≡ self }
    {
        self.bytes
    }

    /// Puts these bytes behind the others.
    pub fn put(&mut self, bytes: &[u8]) -> Result<(), Memory>
        ensures ok { OnOk result (self.new ≡ self.old ++ bytes.now) }
        ensures kept { OnErr result (GoesOn self.old bytes.now self.new) }
    {
        for byte in bytes {
            self.bytes.push(*byte)?;
        }
        Ok(())
    }

    /// Puts a line end.
    pub fn end_line(&mut self) -> Result<(), Memory>
        ensures ok { OnOk result (self.new ≡ self.old ++ 10 ∷ []) }
        ensures kept { OnErr result (GoesOn self.old (10 ∷ []) self.new) }
    {
        self.put(b"\n")
    }

    /// Puts the numeral of a number.
    pub fn whole(&mut self, number: i128) -> Result<(), Memory>
        ensures ok { OnOk result (self.new ≡ self.old ++ signed_decimal number) }
        ensures kept { OnErr result (GoesOn self.old (signed_decimal number) self.new) }
    {
        let numeral = write_whole(self.alloc, number)?;
        self.put(numeral.as_slice())
    }

    /// Puts the numeral of a number from 0 on.
    pub fn count(&mut self, number: u128) -> Result<(), Memory>
        ensures ok { OnOk result (self.new ≡ self.old ++ decimal number) }
        ensures kept { OnErr result (GoesOn self.old (decimal number) self.new) }
    {
        let numeral = format!(in self.alloc; "{number}")?;
        self.put(numeral.as_bytes())
    }

    /// Puts a fraction: a whole number, or its two parts with a slash between.
    pub fn fraction(&mut self, fraction: &Frac) -> Result<(), Memory>
        ensures ok { OnOk result (self.new ≡ self.old ++ fraction_word fraction.now) }
        ensures kept { OnErr result (GoesOn self.old (fraction_word fraction.now) self.new) }
    {
        let (num, den) = (fraction.num(), fraction.den());
        if den == 1 {
            return self.whole(num);
        }
        self.whole(num)?;
        self.put(b"/")?;
        self.whole(den)
    }

    /// Puts a fraction, or `none`.
    pub fn fraction_or_none(&mut self, fraction: Option<Frac>) -> Result<(), Memory>
        ensures ok { OnOk result (self.new ≡ self.old ++ fraction_or_none fraction) }
        ensures kept { OnErr result (GoesOn self.old (fraction_or_none fraction) self.new) }
    {
        match fraction {
            None => self.put(b"none"),
            Some(fraction) => self.fraction(&fraction),
        }
    }

    /// Puts a word behind a blank.
    pub fn word(&mut self, word: &[u8]) -> Result<(), Memory>
        ensures ok { OnOk result (self.new ≡ self.old ++ 32 ∷ word.now) }
        ensures kept { OnErr result (GoesOn self.old (32 ∷ word.now) self.new) }
    {
        self.put(b" ")?;
        self.put(word)
    }

    /// Puts the numeral of a number behind a blank.
    pub fn whole_word(&mut self, number: i128) -> Result<(), Memory>
        ensures ok { OnOk result (self.new ≡ self.old ++ 32 ∷ signed_decimal number) }
        ensures kept { OnErr result (GoesOn self.old (32 ∷ signed_decimal number) self.new) }
    {
        self.put(b" ")?;
        self.whole(number)
    }

    /// Puts the numeral of a number from 0 on behind a blank.
    pub fn count_word(&mut self, number: u128) -> Result<(), Memory>
        ensures ok { OnOk result (self.new ≡ self.old ++ 32 ∷ decimal number) }
        ensures kept { OnErr result (GoesOn self.old (32 ∷ decimal number) self.new) }
    {
        self.put(b" ")?;
        self.count(number)
    }

    /// Puts words, each behind a blank.
    pub fn words(&mut self, words: &[&[u8]]) -> Result<(), Memory>
        ensures ok { OnOk result (self.new ≡ self.old ++ behind_blanks (map (λ word. word.now) words.now)) }
        ensures kept { OnErr result (GoesOn self.old (behind_blanks (map (λ word. word.now) words.now)) self.new) }
    {
        for word in words {
            self.word(word)?;
        }
        Ok(())
    }

    /// Puts a line of words, of which this is the first.
    pub fn line(&mut self, first: &[u8], others: &[&[u8]]) -> Result<(), Memory>
        ensures ok { OnOk result (self.new ≡ self.old ++ line_text (first.now ∷ map (λ word. word.now) others.now)) }
        ensures kept { OnErr result (GoesOn self.old (line_text (first.now ∷ map (λ word. word.now) others.now)) self.new) }
    {
        self.put(first)?;
        self.words(others)?;
        self.end_line()
    }
}
