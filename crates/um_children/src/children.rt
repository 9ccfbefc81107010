//! A child of a node that is split.

ghost use Rattle.std.specs.Prelude.{◌≡◌, [], pos, ◌<ℤ◌, length, None, IfSome};
ghost use Rattle.um_multipliers.specs.PlainMultipliers.{plain_multipliers};
ghost use Rattle.um_model.specs.Boxes.{IsVoid};
ghost use Rattle.um_model.specs.Branches.{Fits, child};
ghost use Rattle.um_bound.specs.Usable.{AreUsable};
ghost use Rattle.um_model.specs.AnswerValues.{plain_node, OpenLeaf};
ghost use Rattle.um_children.specs.NewChildren.{one_and_none, IsChild, IsNewNode, IsEntryUnder};

use crate::handed::one_and_none;
use crate::keys::key_of;
use std::alloc::Global;
use um_box::NodeBox;
use um_deck::Deck;
use um_model::{Branch, Multipliers, Node, Side, What};
use um_nodes::OpenNode;

/// A new child: its node, and the entry that waits for it where it is open.
#[derive(Debug, Drop)]
pub struct Child {
    pub node: Node,
    pub entry: Option<OpenNode>,
}

/// The child on this side of a branch of the node's box, with this id and depth: void, or open under the multipliers.
/// The box is entered and left again. For now of decks without arcs. Takes no memory.
pub fn make_child(
    deck: &Deck,
    node: &mut NodeBox<'_>,
    branch: &Branch,
    side: Side,
    id: u32,
    depth: u32,
    y: Multipliers,
    alloc: Global,
) -> Child
    requires same_deck { node.old.deck ≡ deck.now }
    requires fits { Fits deck.now node.old.limits branch.now }
    requires no_arcs { deck.now.arcs ≡ [] }
    requires usable { AreUsable (length deck.now.rows) (plain_multipliers y) }
    requires y0 { pos 0 <ℤ y.y0 }
    ensures back { node.new ≡ node.old }
    ensures child { IsChild deck.now (child deck.now node.old.limits branch.now side) id result }
    ensures node { IsNewNode deck.now (child deck.now node.old.limits branch.now side) (plain_node result.node) }
    ensures handed { IfSome result.entry (IsEntryUnder id depth (plain_multipliers y)) }
{
    let undo = node.enter(branch, side);
    let made = child_of(deck, node, id, depth, y, alloc);
    node.leave(undo);
    made
}

/// The node of this box, with this id and depth: void, or open under the multipliers.
fn child_of(
    deck: &Deck,
    node: &NodeBox<'_>,
    id: u32,
    depth: u32,
    y: Multipliers,
    alloc: Global,
) -> Child
    requires same_deck { node.now.deck ≡ deck.now }
    requires no_arcs { deck.now.arcs ≡ [] }
    requires usable { AreUsable (length deck.now.rows) (plain_multipliers y) }
    requires y0 { pos 0 <ℤ y.y0 }
    ensures child { IsChild deck.now node.now.limits id result }
    ensures node { IsNewNode deck.now node.now.limits (plain_node result.node) }
    ensures handed { IfSome result.entry (IsEntryUnder id depth (plain_multipliers y)) }
{
    match node.void() {
        Some(column) => void_child(column),
        None => open_child(deck, node, id, depth, y, alloc),
    }
}

fn void_child(column: u32) -> Child
    ensures node { result.node ≡ record { solved = None; what = What.Void column } }
    ensures entry { result.entry ≡ None }
{
    Child {
        node: Node {
            solved: None,
            what: What::Void(column),
        },
        entry: None,
    }
}

/// An open node, whose own multipliers wait in its entry.
fn open_child(
    deck: &Deck,
    node: &NodeBox<'_>,
    id: u32,
    depth: u32,
    y: Multipliers,
    alloc: Global,
) -> Child
    requires same_deck { node.now.deck ≡ deck.now }
    requires not_void { ¬ IsVoid deck.now node.now.limits }
    requires no_arcs { deck.now.arcs ≡ [] }
    requires usable { AreUsable (length deck.now.rows) (plain_multipliers y) }
    requires y0 { pos 0 <ℤ y.y0 }
    ensures child { IsChild deck.now node.now.limits id result }
    ensures node { IsNewNode deck.now node.now.limits (plain_node result.node) }
    ensures handed { IfSome result.entry (IsEntryUnder id depth (plain_multipliers y)) }
{
    let key = key_of(deck, node, id, depth, &y);
    Child {
        node: open_node(alloc),
        entry: Some(OpenNode { key, node: id, y }),
    }
}

/// A node that waits, as it stands in the tree: an open leaf with the multipliers 1 and none. Takes no memory.
pub fn open_node(alloc: Global) -> Node
    ensures { plain_node result ≡ record { solved = None; what = OpenLeaf one_and_none } }
{
    Node {
        solved: None,
        what: What::OpenLeaf(one_and_none(alloc)),
    }
}
