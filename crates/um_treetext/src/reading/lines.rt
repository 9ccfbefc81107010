//! The lines of a tree's text.

ghost use Rattle.std.specs.Prelude.{◌≡◌, ◌<◌, ◌≢◌, ◌∷◌, [], length, IfSome, MatchResult, Ok, Err};
ghost use Rattle.std.specs.List.{position, slice_split};
ghost use Rattle.um_text.specs.Lines.{ends_line};
ghost use Rattle.um_treetext.specs.Reading.{is_end, line_taken};

use crate::fault::{TreeFault, TreeWord};
use crate::reading::words::LineWords;
use std::marker::Model;

/// The lines of a text that are left, each ended by LF. Contracts see them as the pieces between the LF bytes, of
/// which the last is no line.
#[derive(Drop)]
pub struct TextLines<'b> {
    rest: &'b [u8],
}

impl<'b> Model for TextLines<'b> {
    ghost use Rattle.std.specs.Prelude.{List, ℕ};
    ghost use Rattle.std.specs.List.{slice_split};
    ghost use Rattle.um_text.specs.Lines.{ends_line};

    ghost Value = { List (List ℕ) };

    ghost view = { λ lines. slice_split ends_line lines.rest.now };
}

impl<'b> TextLines<'b> {
    pub fn of(bytes: &'b [u8]) -> TextLines<'b>
        ensures { result ≡ slice_split ends_line bytes.entry.now }
    {
        TextLines { rest: bytes }
    }

    /// The words of the next line, which must be there; this many lines were read before it.
    pub fn next(&mut self, before: u32) -> Result<LineWords<'b>, TreeFault>
        ensures { MatchResult result (λ words. line_taken before self.old ≡ Ok (record { value = words; left = self.new })) (λ f. line_taken before self.old ≡ Err (f.line, f.fault)) }
    {
        let bytes = self.rest;
        match line_end(bytes) {
            Some(at) => {
                self.rest = &bytes[at + 1..];
                Ok(LineWords::of(&bytes[..at]))
            }
            None => Err(TreeFault {
                line: before,
                fault: TreeWord::NoEnd,
            }),
        }
    }

    /// Whether nothing follows.
    pub fn is_at_end(&self) -> bool
        ensures { result ≡ is_end self.now }
    {
        self.rest.is_empty()
    }
}

/// Where the first line ends, if an LF ends it.
fn line_end(bytes: &[u8]) -> Option<usize>
    ensures place { result ≡ position ends_line bytes.now }
    ensures within { IfSome result (λ at. at < length bytes.now) }
{
    bytes.iter().position(|byte| *byte == b'\n')
}

/// What a line says, or its fault at this line.
pub fn at_line<T>(line: u32, said: Result<T, TreeWord>) -> Result<T, TreeFault>
    ensures { MatchResult said (λ value. result ≡ Ok value) (λ fault. result ≡ Err (record { line = line; fault = fault })) }
{
    match said {
        Ok(value) => Ok(value),
        Err(fault) => Err(TreeFault { line, fault }),
    }
}
