//! The whole text.

ghost use Rattle.std.specs.Prelude.{◌≡◌, ◌++◌, IfOk, OnOk};
ghost use Rattle.um_make.specs.NormalLines.{back_lines, normal_text};
ghost use Rattle.um_make.specs.Printed.{text_of};

use crate::bounds::put_bounds;
use crate::columns::put_columns;
use crate::front::put_front;
use crate::sets::{put_arcs, put_sets};
use crate::sides::{put_ranges, put_sides};
use std::alloc::Global;
use um_deck::Deck;
use um_num::{List, Memory};
use um_text::Text;

/// The normal text of a deck, whatever deck it is: its lines as `specs/NormalLines.antt` has them, each ended by LF.
/// The error is want of memory, and then nothing is left of the text; the deck is as it was either way.
pub fn print(alloc: Global, deck: &Deck) -> Result<List<u8>, Memory>
    ensures { IfOk result (λ text. text.items ≡ normal_text deck.now) }
{
    let mut text = Text::new(alloc);
    put_front(&mut text, deck)?;
    put_columns(&mut text, deck)?;
    put_back(&mut text, deck)?;
    Ok(text.into_bytes())
}

/// The lines behind the columns.
fn put_back(text: &mut Text, deck: &Deck) -> Result<(), Memory>
    ensures { OnOk result (text.new ≡ text.old ++ text_of (back_lines deck.now)) }
{
    put_sides(text, deck)?;
    put_ranges(text, deck)?;
    put_bounds(text, deck)?;
    put_sets(text, deck)?;
    put_arcs(text, deck)?;
    text.put(b"ENDATA\n")
}
