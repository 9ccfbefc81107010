//! The words of a line, from left to right.

ghost use Rattle.std.specs.Prelude.{◌≡◌, ◌≢◌, ◌∷◌, ◌<◌, ◌↔◌, [], length, drop, slice_index, IsTrue, IfSome, IfOk, IfErr, MatchResult, Ok, Err};
ghost use Rattle.std.specs.List.{position};
ghost use Rattle.std.specs.Option.{option_map_or};
ghost use Rattle.um_text.specs.Words.{is_gap};
ghost use Rattle.um_treetext.specs.Words.{ended, fixed, is_next, line_words, next_word};

use crate::fault::TreeWord;
use std::marker::Model;

/// The words of a line that are left. Contracts see them as a list of bytes' lists.
#[derive(Drop)]
pub struct LineWords<'b> {
    // What stands behind the last gap; `None` where the line is over.
    rest: Option<&'b [u8]>,
}

impl<'b> Model for LineWords<'b> {
    ghost use Rattle.std.specs.Prelude.{List, ℕ, []};
    ghost use Rattle.std.specs.Option.{option_map_or};
    ghost use Rattle.um_treetext.specs.Words.{line_words};

    ghost Value = { List (List ℕ) };

    ghost view = { λ left. option_map_or (λ bytes. line_words bytes.now) left.rest [] };
}

impl<'b> LineWords<'b> {
    pub fn of(line: &'b [u8]) -> LineWords<'b>
        ensures { result ≡ line_words line.entry.now }
    {
        LineWords { rest: Some(line) }
    }

    /// Steps over the next word and gives it. There must be one, behind a single blank.
    pub fn word(&mut self) -> Result<&'b [u8], TreeWord>
        ensures { MatchResult result (λ word. next_word self.old ≡ Ok (record { value = word.now; left = self.new })) (λ fault. next_word self.old ≡ Err fault) }
    {
        match self.rest {
            Some(bytes) => {
                let (piece, rest) = cut(bytes);
                self.rest = rest;
                some_bytes(piece)
            }
            None => Err(TreeWord::BadWord),
        }
    }

    /// Steps over this word, which must come next.
    pub fn fixed(&mut self, word: &[u8]) -> Result<(), TreeWord>
        ensures { MatchResult result (λ _. fixed word.now self.old ≡ Ok self.new) (λ fault. fixed word.now self.old ≡ Err fault) }
    {
        if self.word()? == word {
            Ok(())
        } else {
            Err(TreeWord::BadWord)
        }
    }

    /// Whether this word comes next.
    pub fn is_next(&self, word: &[u8]) -> bool
        ensures { result ≡ is_next word.now self.now }
    {
        match self.rest {
            Some(bytes) => cut(bytes).0 == word,
            None => false,
        }
    }

    /// Steps over the next word, if there is one.
    pub fn skip(&mut self)
        ensures { self.new ≡ drop 1 self.old }
    {
        match self.rest {
            Some(bytes) => self.rest = cut(bytes).1,
            None => (),
        }
    }

    pub fn is_over(&self) -> bool
        ensures { IsTrue result ↔ (self.now ≡ []) }
    {
        match self.rest {
            Some(_) => false,
            None => true,
        }
    }

    /// No further word may come.
    pub fn end(&self) -> Result<(), TreeWord>
        ensures { MatchResult result (λ _. ended self.now ≡ Ok []) (λ fault. ended self.now ≡ Err fault) }
    {
        if self.is_over() {
            Ok(())
        } else {
            Err(TreeWord::BadWord)
        }
    }
}

/// A piece that is a word.
fn some_bytes(piece: &[u8]) -> Result<&[u8], TreeWord>
    ensures ok { IfOk result (λ word. word.now ≡ piece.now) }
    ensures some { IfOk result (λ word. 0 < length word.now) }
    ensures err { IfErr result (λ fault. (fault ≡ TreeWord.BadWord) × (piece.now ≡ [])) }
{
    if piece.is_empty() {
        return Err(TreeWord::BadWord);
    }
    Ok(piece)
}

/// The first piece of a line, and what stands behind the gap that ends it.
fn cut(bytes: &[u8]) -> (&[u8], Option<&[u8]>)
    ensures { line_words bytes.now ≡ result.0.now ∷ option_map_or (λ rest. line_words rest.now) result.1 [] }
{
    match gap_place(bytes) {
        Some(at) => {
            let (piece, behind) = bytes.split_at(at);
            (piece, Some(behind_gap(behind)))
        }
        None => (bytes, None),
    }
}

fn gap_place(bytes: &[u8]) -> Option<usize>
    ensures place { result ≡ position is_gap bytes.now }
    ensures within { IfSome result (λ at. at < length bytes.now) }
{
    bytes
        .iter()
        .position(|byte| *byte == b' ' || *byte == b'\t')
}

/// What stands behind a blank; behind a tab nothing is looked at.
fn behind_gap(bytes: &[u8]) -> &[u8]
    requires { 0 < length bytes.now }
    ensures blank { slice_index bytes.now 0 ≡ 32 → result.now ≡ drop 1 bytes.now }
    ensures tab { slice_index bytes.now 0 ≢ 32 → result.now ≡ [] }
{
    if bytes[0] == b' ' {
        &bytes[1..]
    } else {
        &bytes[..0]
    }
}
