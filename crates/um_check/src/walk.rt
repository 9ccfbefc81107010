//! The boxes that wait for their trees while nodes are looked at in preorder.

ghost use Rattle.std.specs.Prelude.{◌≡◌, ◌≢◌, ◌+◌, ◌<◌, ◌≤◌, [], ◌∷◌, ◌↔◌, length, vec_len, vec_capacity, IsTrue, IfOk};
ghost use Rattle.um_model.specs.Branches.{Fits, left, right};
ghost use Rattle.um_box.specs.NodeBoxes.{entered};
ghost use Rattle.um_box.specs.Paths.{root_box};
ghost use Rattle.um_box.specs.Undos.{Undoes};
ghost use Rattle.um_check.specs.Turns.{waiting, pending, IsWay};

use std::alloc::Global;
use std::marker::Model;
use um_box::{Branch, NodeBox, Side, Undo};
use um_deck::Deck;
use um_model::limits::MOST_NODES;
use um_num::Memory;

/// A step on the way from the root to a box: the side that was taken of a branch, and what leads back.
#[derive(Debug, Drop)]
pub struct Turn {
    pub branch: Branch,
    pub side: Side,
    pub undo: Undo,
}

/// The boxes that wait for their trees, the next one first. Only that one is kept, and the others are
/// found again by the turns on the way to it.
#[derive(Drop)]
pub struct Walk<'d> {
    node: NodeBox<'d>,
    turns: Vec<Turn>,
    waits: bool,
}

impl<'d> Model for Walk<'d> {
    ghost use Rattle.std.specs.Prelude.{◌≤◌, length, vec_capacity};
    ghost use Rattle.um_model.specs.declared.limits.TheConstants.{MOST_NODES};
    ghost use Rattle.um_check.specs.Walks.{WalkValue};
    ghost use Rattle.um_box.specs.Paths.{root_box};

    ghost Value = { WalkValue };

    ghost use Rattle.um_check.specs.Turns.{waiting, pending, IsWay};

    ghost view = { λ w. record { deck = w.node.deck; boxes = pending w.waits w.node.limits (waiting (root_box w.node.deck) w.turns.items); depth = length w.turns.items } };

    ghost invariant = { λ w. IsWay w.node w.turns.items × (MOST_NODES ≤ vec_capacity w.turns) };
}

impl<'d> Walk<'d> {
    ghost use Rattle.um_check.specs.Walks.{start_of, IsFirst, FirstFits, rest_of, split_first};

    /// Only the deck's own box waits. Takes room for the turns to every node of a tree; the error is want
    /// of memory.
    pub fn new(alloc: Global, deck: &'d Deck) -> Result<Walk<'d>, Memory>
        ensures { IfOk result (λ walk. walk ≡ start_of deck.now) }
    {
        let node = NodeBox::root(alloc, deck)?;
        let turns = Vec::with_capacity(alloc, MOST_NODES)?;
        Ok(Walk {
            node,
            turns,
            waits: true,
        })
    }

    pub fn deck(&self) -> &Deck
        ensures { result.now ≡ self.now.deck }
    {
        self.node.deck()
    }

    /// Whether a box waits.
    pub fn waits(&self) -> bool
        ensures { IsTrue result ↔ (self.now.boxes ≢ []) }
    {
        self.waits
    }

    /// The next box.
    pub fn node(&self) -> &NodeBox<'d>
        requires { self.now.boxes ≢ [] }
        ensures deck { result.now.deck ≡ self.now.deck }
        ensures first { IsFirst result.now.limits self.now.boxes }
    {
        &self.node
    }

    /// Cuts the next box: its two children wait in its place.
    pub fn split(&mut self, branch: &Branch)
        requires fits { FirstFits self.old.deck branch.now self.old.boxes }
        requires room { self.old.depth < MOST_NODES }
        ensures deck { self.new.deck ≡ self.old.deck }
        ensures boxes { self.new.boxes ≡ split_first self.old.deck branch.now self.old.boxes }
        ensures depth { self.new.depth ≡ self.old.depth + 1 }
    {
        descend(&mut self.node, &mut self.turns, branch);
    }

    /// Goes on to the box behind the next one, if there is one.
    pub fn go_on(&mut self)
        ensures deck { self.new.deck ≡ self.old.deck }
        ensures boxes { self.new.boxes ≡ rest_of self.old.boxes }
        ensures depth { self.new.depth ≤ self.old.depth }
    {
        if self.waits {
            self.waits = advance(&mut self.node, &mut self.turns);
        }
    }

    /// Goes back to the deck's own box.
    pub fn restart(&mut self)
        ensures { self.new ≡ start_of self.old.deck }
    {
        go_back(&mut self.node, &mut self.turns);
        self.waits = true;
    }
}

/// Takes one side of a branch.
fn turn_to(node: &mut NodeBox<'_>, branch: Branch, side: Side) -> Turn
    requires { Fits node.old.deck node.old.limits branch }
    ensures branch { result.branch ≡ branch }
    ensures side { result.side ≡ side }
    ensures child { node.new ≡ entered node.old branch side }
    ensures undo { Undoes result.undo node.old node.new }
{
    let undo = node.enter(&branch, side);
    Turn { branch, side, undo }
}

/// Goes on to the left child of a branch.
fn descend(node: &mut NodeBox<'_>, turns: &mut Vec<Turn>, branch: &Branch)
    requires room { vec_len turns.old < vec_capacity turns.old }
    requires fits { Fits node.old.deck node.old.limits branch.now }
    requires way { IsWay node.old turns.old.items }
    ensures way { IsWay node.new turns.new.items }
    ensures deck { node.new.deck ≡ node.old.deck }
    ensures boxes { node.new.limits ∷ waiting (root_box node.new.deck) turns.new.items ≡ left node.old.deck node.old.limits branch.now ∷ right node.old.deck node.old.limits branch.now ∷ waiting (root_box node.old.deck) turns.old.items }
    ensures capacity { vec_capacity turns.new ≡ vec_capacity turns.old }
    ensures length { length turns.new.items ≡ length turns.old.items + 1 }
{
    let turn = turn_to(node, *branch, Side::Left);
    turns.push_reserved(turn);
}

/// Goes on to the right child that waits next. Without one it goes back to the root, and answers false.
fn advance(node: &mut NodeBox<'_>, turns: &mut Vec<Turn>) -> bool
    requires way { IsWay node.old turns.old.items }
    ensures way { IsWay node.new turns.new.items }
    ensures deck { node.new.deck ≡ node.old.deck }
    ensures boxes { waiting (root_box node.old.deck) turns.old.items ≡ pending result node.new.limits (waiting (root_box node.new.deck) turns.new.items) }
    ensures capacity { vec_capacity turns.new ≡ vec_capacity turns.old }
    ensures length { length turns.new.items ≤ length turns.old.items }
{
    while let Some(turn) = turns.pop() {
        let Turn { branch, side, undo } = turn;
        node.leave(undo);
        match side {
            Side::Left => {
                let right = turn_to(node, branch, Side::Right);
                turns.push_reserved(right);
                return true;
            }
            Side::Right => {}
        }
    }
    false
}

/// Goes back to the root.
fn go_back(node: &mut NodeBox<'_>, turns: &mut Vec<Turn>)
    requires way { IsWay node.old turns.old.items }
    ensures node { node.new ≡ root_box node.old.deck }
    ensures turns { turns.new.items ≡ [] }
    ensures capacity { vec_capacity turns.new ≡ vec_capacity turns.old }
{
    while let Some(turn) = turns.pop() {
        node.leave(turn.undo);
    }
}
