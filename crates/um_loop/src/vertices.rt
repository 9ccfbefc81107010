//! A node that ended at a vertex.

ghost use Rattle.std.specs.Prelude.{◌≡◌, ◌≤◌, ◌+◌, ◌<◌, ◌^◌, ◌<ℤ◌, ◌↔◌, [], length, pos, unsigned_abs, IsTrue, MatchOption, IfOk, IfSome};
ghost use Rattle.um_model.specs.Boxes.{IsVoid};
ghost use Rattle.um_model.specs.Values.{plain_point};
ghost use Rattle.um_multipliers.specs.PlainMultipliers.{plain_multipliers};
ghost use Rattle.um_bound.specs.Usable.{AreUsable};
ghost use Rattle.um_deck.specs.Decks.{IsDeckNow};
ghost use Rattle.um_model.specs.Branches.{Fits};
ghost use Rattle.um_model.specs.declared.limits.TheConstants.{MOST_NODES, MULTIPLIER_SIZE};
ghost use Rattle.um_nodes.specs.Keys.{IsKey};
ghost use Rattle.um_tree.specs.Growths.{IsOpenAt};
ghost use Rattle.um_loop.specs.Steps.{IsClosing, IsNotClosing, IsVertex, VertexLed, AfterVertex};

use crate::acts::improve;
use crate::search::{Halt, Search};
use std::alloc::Global;
use um_bound::{bound_of, closes};
use um_box::NodeBox;
use um_children::key_of;
use um_deck::Deck;
use um_model::{Branch, Multipliers, Point, Solved, Why};
use um_nodes::{Key, OpenNode};
use um_num::{Frac, Memory};
use um_progress::Incumbent;
use um_split::branch_of;

/// The bound of a key, where the key closes a node at the best point so far.
pub(crate) fn closing(deck: &Deck, best: &Option<Incumbent>, key: &Key) -> Option<Frac>
    requires key { IsKey key.now }
    requires y0 { key.now.y0 <ℤ pos MULTIPLIER_SIZE }
    requires value { unsigned_abs key.now.value < 2 ^ 126 }
    ensures { MatchOption result (IsNotClosing deck.now best.now key.now) (IsClosing deck.now best.now key.now) }
{
    let Some(best) = best else { return None };
    if is_endless(key) {
        return None;
    }
    if closes(deck, key.y0, key.value, &best.objective, 0) {
        Some(bound_of(deck, key.y0, key.value))
    } else {
        None
    }
}

/// Whether the key has no bound.
pub fn is_endless(key: &Key) -> bool
    ensures { IsTrue result ↔ (key.now.y0 ≡ pos 0) }
{
    key.y0 == 0
}

impl Search {
    /// The node in hand ended at this vertex, with these multipliers: the vertex is the best point then, where
    /// it is better, and the node is closed or branched. Where it is neither, the search stops; without arcs that
    /// does not come, as a vertex that asks for no branch is feasible. The error is want of memory.
    pub(crate) fn at_vertex(
        &mut self,
        alloc: Global,
        deck: &Deck,
        node: &mut NodeBox<'_>,
        taken: &OpenNode,
        solved: Solved,
        point: Point,
        y: Multipliers,
    ) -> Result<Option<Halt>, Memory>
        requires formed { IsDeckNow deck.now }
        requires place { IsOpenAt self.old.growth taken.now.node }
        requires room { length self.old.growth.nodes + 2 ≤ MOST_NODES }
        requires depth { taken.now.key.depth < MOST_NODES }
        requires same_deck { node.old.deck ≡ deck.now }
        requires full { ¬ IsVoid deck.now node.old.limits }
        requires no_arcs { deck.now.arcs ≡ [] }
        requires vertex { IsVertex deck.now node.old.limits (plain_point point) (plain_multipliers y) }
        ensures { IfOk result (λ halt. AfterVertex deck.now node.old.limits self.old taken.now solved (plain_point point) (plain_multipliers y) halt self.new) }
    {
        let key = key_of(deck, node, taken.key.id, taken.key.depth, &y);
        let asked = branch_of(deck, node, &point);
        improve(deck, &mut self.incumbent, point);
        self.settle_vertex(alloc, deck, node, taken, solved, asked, key, y)
    }

    /// The node of a vertex is closed by its key, or branched as the vertex asks. Else the search stops.
    fn settle_vertex(
        &mut self,
        alloc: Global,
        deck: &Deck,
        node: &mut NodeBox<'_>,
        taken: &OpenNode,
        solved: Solved,
        asked: Option<Branch>,
        key: Key,
        y: Multipliers,
    ) -> Result<Option<Halt>, Memory>
        requires place { IsOpenAt self.old.growth taken.now.node }
        requires room { length self.old.growth.nodes + 2 ≤ MOST_NODES }
        requires depth { taken.now.key.depth < MOST_NODES }
        requires same_deck { node.old.deck ≡ deck.now }
        requires no_arcs { deck.now.arcs ≡ [] }
        requires fits { IfSome asked (Fits deck.now node.old.limits) }
        requires key { IsKey key }
        requires key_y0 { key.y0 <ℤ pos MULTIPLIER_SIZE }
        requires key_value { unsigned_abs key.value < 2 ^ 126 }
        requires usable { AreUsable (length deck.now.rows) (plain_multipliers y) }
        requires y0 { pos 0 <ℤ y.y0 }
        ensures { IfOk result (λ halt. VertexLed deck.now node.old.limits self.old taken.now solved asked (plain_multipliers y) key halt self.new) }
    {
        let id = taken.node;
        if let Some(bound) = closing(deck, &self.incumbent, &key) {
            self.close(id, Some(solved), y, &bound);
            return Ok(None);
        }
        let Some(branch) = asked else {
            return Ok(Some(at_grid(id, solved, key, y)));
        };
        let depth = taken.key.depth + 1;
        self.branch(alloc, deck, node, id, depth, solved, branch, y)?;
        Ok(None)
    }
}

/// The stop at a vertex that asks for no branch and does not close its node.
fn at_grid(node: u32, solved: Solved, key: Key, y: Multipliers) -> Halt
    ensures cause { result.why ≡ Why.Grid solved.number }
    ensures number { result.solved ≡ Some solved }
    ensures node { result.hand.node ≡ node }
    ensures key { result.hand.key ≡ key }
    ensures multipliers { plain_multipliers result.hand.y ≡ plain_multipliers y }
{
    Halt {
        why: Why::Grid {
            number: solved.number,
        },
        hand: OpenNode { key, node, y },
        solved: Some(solved),
    }
}
