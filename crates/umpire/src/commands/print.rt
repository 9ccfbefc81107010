//! `print DECK`: the normal text of a deck.

ghost use Rattle.std.specs.Prelude.{◌≡◌, false, IfOk, IfErr};
ghost use Rattle.um_outside.specs.Scenes.{Idle};
ghost use Rattle.umpire.specs.PrintRuns.{HasPrinted, PrintRan, PrintStopped};

use crate::ending::Ending;
use crate::reading::{Stop, read_deck};
use crate::saying::{give_up, say};
use std::alloc::Global;
use um_make::print as normal_text;
use um_num::List;
use um_outside::{Desk, Sink};

/// Reads a deck, and writes its normal text.
pub fn print<D: Desk, O: Sink>(alloc: Global, deck: &str, desk: &mut D, out: &mut O) -> Ending
    requires idle { (D.scene desk.old).mode ≡ Idle }
    requires going { (D.scene desk.old).stopped ≡ false }
    requires out_going { (O.told out.old).stopped ≡ false }
    ensures { PrintRan deck.now result (D.scene desk.old) (D.scene desk.new) (O.told out.old) (O.told out.new) }
{
    match text_of(alloc, desk, deck) {
        Ok(text) => say(out, text.as_slice(), Ending::Printed),
        Err(stop) => give_up(alloc, out, stop),
    }
}

/// Reads a deck. Its normal text is made before anything is written.
fn text_of<D: Desk>(alloc: Global, desk: &mut D, name: &str) -> Result<List<u8>, Stop>
    requires idle { (D.scene desk.old).mode ≡ Idle }
    requires going { (D.scene desk.old).stopped ≡ false }
    ensures ok { IfOk result (λ text. HasPrinted name.now text.items (D.scene desk.old) (D.scene desk.new)) }
    ensures err { IfErr result (λ stop. PrintStopped name.now stop (D.scene desk.old) (D.scene desk.new)) }
{
    let deck = read_deck(alloc, desk, name)?;
    let text = normal_text(alloc, &deck)?;
    Ok(text)
}
