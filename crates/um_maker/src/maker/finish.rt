//! The deck of all that a maker was told.

ghost use Rattle.std.specs.Prelude.{◌≡◌, [], IfOk, unwrap_or};

use crate::Fault;
use crate::maker::DeckMaker;
use std::alloc::Global;
use um_deck::Deck;
use um_made::Told;
use um_num::{Memory, Name};

impl DeckMaker {
    ghost use Rattle.um_statements.specs.DeckRules.{Finishes};
    ghost use Rattle.um_deck.specs.Decks.{IsDeckNow};

    /// The deck of all that was told, or the first of the rules on the whole deck that is broken: those on the
    /// objective, then on rows, columns and sets, each by number. `Memory` may come in their place.
    pub fn finish(self) -> Result<Deck, Fault>
        ensures made { Finishes self result }
        ensures formed { IfOk result IsDeckNow }
    {
        let DeckMaker {
            alloc,
            name,
            maximise,
            rows,
            columns,
            sets,
            arcs,
            objective: _,
            sided_rows: _,
            arc_columns: _,
        } = self;
        let told = Told {
            name: name_or_empty(alloc, name)?,
            maximise,
            rows: rows.into_list(alloc)?,
            columns: columns.into_list(alloc)?,
            sets: sets.into_list(alloc)?,
            arcs,
        };
        match told.parts(alloc) {
            Ok(parts) => Ok(Deck::from_parts(parts)),
            Err(fault) => Err(fault),
        }
    }
}

fn name_or_empty(alloc: Global, name: Option<Name>) -> Result<Name, Memory>
    ensures { IfOk result (λ given. given ≡ unwrap_or name []) }
{
    match name {
        Some(name) => Ok(name),
        None => Name::from_bytes(alloc, b""),
    }
}
