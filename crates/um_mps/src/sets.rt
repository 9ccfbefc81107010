//! Lines of SOS.

ghost use Rattle.std.specs.Prelude.{◌≡◌, OnOk};
ghost use Rattle.um_statements.specs.Tells.{TellsAll, wants_weight};
ghost use Rattle.um_decktext.specs.SetLines.{set_says};
ghost use Rattle.um_mps.specs.Behind.{behind_set_line};

use crate::place::Place;
use um_maker::{DeckMaker, Fault};
use um_text::Words;

/// A line of SOS. The place goes on with what the maker knows of the last set.
pub fn set_line(
    maker: &mut DeckMaker,
    place: &mut Place<'_>,
    words: &Words<'_>,
) -> Result<(), Fault>
    requires weights { place.old.weights ≡ wants_weight maker.old }
    ensures told { TellsAll (set_says place.old.weights words.now) maker.old result maker.new }
    ensures place { OnOk result (place.new ≡ behind_set_line words.now place.old) }
{
    match um_setsec::set_line(maker, words) {
        Ok(()) => {
            place.keep_weights(maker.wants_weight());
            Ok(())
        }
        Err(fault) => Err(fault),
    }
}
