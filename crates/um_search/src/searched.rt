//! Which decks are searched so far.

ghost use Rattle.std.specs.Prelude.{◌↔◌, IsTrue};
ghost use Rattle.um_search.specs.Conditions.{IsSearched};

use um_deck::Deck;

/// Whether the deck is one that is searched: it has no arcs.
pub fn is_searched(deck: &Deck) -> bool
    ensures { IsTrue result ↔ IsSearched deck.now }
{
    deck.arcs().is_empty()
}
