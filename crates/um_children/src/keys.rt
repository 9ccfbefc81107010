//! The key of a node that waits.

ghost use Rattle.std.specs.Prelude.{◌≡◌, ◌^◌, ◌<◌, [], pos, ◌<ℤ◌, unsigned_abs, length};
ghost use Rattle.um_multipliers.specs.PlainMultipliers.{plain_multipliers};
ghost use Rattle.um_model.specs.Boxes.{IsVoid};
ghost use Rattle.um_model.specs.LeafValue.{leaf_value};
ghost use Rattle.um_bound.specs.Usable.{AreUsable};
ghost use Rattle.um_progress.specs.Waits.{KeyIs};

use um_bound::value;
use um_box::NodeBox;
use um_deck::Deck;
use um_model::{Leaf, Multipliers};
use um_nodes::Key;

/// The key of a node in this box under these multipliers. The box is not void. For now of decks without arcs.
pub fn key_of(deck: &Deck, node: &NodeBox<'_>, id: u32, depth: u32, y: &Multipliers) -> Key
    requires same_deck { node.now.deck ≡ deck.now }
    requires not_void { ¬ IsVoid deck.now node.now.limits }
    requires usable { AreUsable (length deck.now.rows) (plain_multipliers y.now) }
    requires no_arcs { deck.now.arcs ≡ [] }
    requires y0 { pos 0 <ℤ y.now.y0 }
    ensures key { KeyIs (leaf_value deck.now node.now.limits (plain_multipliers y.now)) y.now.y0 result }
    ensures size { unsigned_abs result.value < 2 ^ 126 }
    ensures id { result.id ≡ id }
    ensures depth { result.depth ≡ depth }
{
    let (y0, value) = match value(deck, node, y) {
        Leaf::Value(value) => (y.y0, value),
        Leaf::EndlessRow(_) | Leaf::EndlessColumn(_) => (0, 0),
    };
    Key {
        id,
        depth,
        y0,
        value,
    }
}
