//! The lines of refusals.

ghost use Rattle.std.specs.Prelude.{◌≡◌, IfOk, string_bytes};
ghost use Rattle.umpire.specs.Refusals.{refusal_text};

use crate::outcome::Refusal;
use std::alloc::{AllocError, Global};
use um_mps::ReadFault;
use um_num::{List, Memory};
use um_treetext::TreeFault;

/// The line of a refusal: what was refused, why, and for a file at which line.
pub fn refusal_line(alloc: Global, refusal: &Refusal) -> Result<List<u8>, Memory>
    ensures { IfOk result (λ line. line.items ≡ refusal_text refusal.now) }
{
    let line = refusal_string(alloc, refusal)?;
    List::from_slice(alloc, line.as_bytes())
}

fn refusal_string(alloc: Global, refusal: &Refusal) -> Result<String, AllocError>
    ensures { IfOk result (λ line. string_bytes line ≡ refusal_text refusal.now) }
{
    match refusal {
        Refusal::Words(fault) => {
            let word = fault.word();
            format!(in alloc; "words refused: {word}\n")
        }
        Refusal::LowTolerance { least: _ } => { format!(in alloc; "words refused: LowTolerance\n") }
        Refusal::Deck(ReadFault { line, fault }) => {
            let word = fault.word();
            format!(in alloc; "deck refused: {word} at line {line}\n")
        }
        Refusal::Tree(TreeFault { line, fault }) => {
            let word = fault.word();
            format!(in alloc; "tree refused: {word} at line {line}\n")
        }
    }
}
