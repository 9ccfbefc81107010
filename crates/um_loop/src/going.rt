//! The loop of a search: a node is taken, closed by its key, or solved.

ghost use Rattle.std.specs.Prelude.{◌≡◌, ◌+◌, ◌≤◌, ◌<◌, [], length, option_map, IfOk, IfSome};
ghost use Rattle.um_model.specs.Boxes.{IsVoid};
ghost use Rattle.um_model.specs.declared.limits.TheConstants.{MOST_NODES, MOST_NUMBERS};
ghost use Rattle.um_multipliers.specs.PlainMultipliers.{plain_multipliers};
ghost use Rattle.um_deck.specs.Decks.{IsDeckNow};
ghost use Rattle.um_lp.specs.Relaxations.{frame_of};
ghost use Rattle.um_duality.specs.Relaxed.{deck_frame};
ghost use Rattle.um_relax.specs.Relaxations.{IsRelaxationOf};
ghost use Rattle.um_solving.specs.Laws.{OwnSays};
ghost use Rattle.um_loop.specs.Checkables.{AreCheckable};
ghost use Rattle.um_loop.specs.Goings.{Beginning, IsGoing, HasTaken, GoesOn, HasRun, IsNoGridEnding, ending_of};
ghost use Rattle.um_loop.specs.Steps.{IsNotClosing, HasKeptRay, EndSays, HasSettled, HasOwn, HasStoppedAt};
ghost use Rattle.um_tree.specs.Growths.{IsOpenAt};

use crate::search::{Ending, Halt, Search};
use crate::vertices::closing;
use std::alloc::Global;
use um_box::NodeBox;
use um_children::key_of;
use um_cover::box_of;
use um_deck::Deck;
use um_lp::Board;
use um_model::{Multipliers, Solved, Why};
use um_nodes::{Key, OpenNode};
use um_num::{List, Memory};
use um_opening::{NumberEnd, solve_number};
use um_point::feasible;
use um_relax::Relaxation;
use um_solving::NodeEnd;

impl Search {
    /// Takes nodes until none waits, or the run ends before: at the budget of `nodes` with a node in
    /// hand that is not solved, in the solving of a node, or at a feasible point of a deck with a ray. For now of
    /// decks without arcs, where no limit of the grid stops it. The error is want of memory.
    pub fn run<B: Board>(
        &mut self,
        alloc: Global,
        deck: &Deck,
        relaxation: &mut Relaxation,
        board: &mut B,
        nodes: u32,
        left: &mut u64,
    ) -> Result<Option<Ending>, Memory>
        ghost began: { Beginning }
        requires plain { deck.now.arcs ≡ [] }
        requires relaxed { IsRelaxationOf deck.now relaxation.old }
        requires frame { frame_of relaxation.old ≡ deck_frame deck.now }
        requires going { IsGoing deck.now began.start began.most None self.old (B.state board.old) left.old }
        requires budget { nodes ≤ MOST_NUMBERS }
        requires within { self.old.solved ≤ nodes }
        requires checkable { AreCheckable deck.now self.old.growth }
        ensures run { IfOk result (λ ending. HasRun deck.now began.start began.most nodes ending self.new (B.state board.new) left.new) }
        ensures within { IfOk result (λ ending. self.new.solved ≤ nodes) }
        ensures checkable { IfOk result (λ ending. AreCheckable deck.now self.new.growth) }
        ensures no_grid { IfOk result (λ ending. IfSome ending IsNoGridEnding) }
    {
        deck.known();
        'nodes: loop {
            let Some(taken) = self.open.take() else {
                return Ok(None);
            };
            if let Some(bound) = closing(deck, &self.incumbent, &taken.key) {
                self.close(taken.node, None, taken.y, &bound);
                continue;
            }
            if self.solved == nodes {
                return Ok(Some(Ending::Halted(out_of_nodes(taken))));
            }
            if let Some(ending) = self.solve_next(alloc, deck, relaxation, board, taken, left)? {
                return Ok(Some(ending));
            }
        }
    }

    /// Solves the node in hand, which its key does not close, under the next number, and settles it. Where the search stops in this, the
    /// node keeps its own multipliers where they were read. The error is want of memory.
    fn solve_next<B: Board>(
        &mut self,
        alloc: Global,
        deck: &Deck,
        relaxation: &mut Relaxation,
        board: &mut B,
        taken: OpenNode,
        left: &mut u64,
    ) -> Result<Option<Ending>, Memory>
        ghost began: { Beginning }
        requires plain { deck.now.arcs ≡ [] }
        requires relaxed { IsRelaxationOf deck.now relaxation.old }
        requires frame { frame_of relaxation.old ≡ deck_frame deck.now }
        requires taken { HasTaken deck.now began.start began.most taken self.old (B.state board.old) left.old }
        requires few { self.old.solved < MOST_NUMBERS }
        requires checkable { AreCheckable deck.now self.old.growth }
        requires open_still { IsNotClosing deck.now self.old.incumbent taken.key }
        ensures same { relaxation.new ≡ relaxation.old }
        ensures goes { IfOk result (λ ending. GoesOn deck.now began.start began.most self.old ending self.new (B.state board.new) left.new) }
        ensures solved { IfOk result (λ ending. self.new.solved ≡ self.old.solved + 1) }
        ensures checkable { IfOk result (λ ending. AreCheckable deck.now self.new.growth) }
        ensures no_grid { IfOk result (λ ending. IfSome ending IsNoGridEnding) }
    {
        deck.known();
        let mut node = box_of(alloc, deck, &self.growth, taken.node)?;
        self.solved += 1;
        let number = self.solved;
        let before = *left;
        let NumberEnd { end, ray } = solve_number(alloc, number, &node, relaxation, board, left)?;
        self.keep_ray(number, ray);
        let pivots = before - *left;
        let solved = Solved { number, pivots };
        self.settle(alloc, deck, &mut node, taken, solved, end)
    }

    /// Keeps the ray that the opening under number 1 has shown, if it has shown one.
    fn keep_ray(&mut self, number: u32, shown: Option<List<i128>>)
        ensures { HasKeptRay number shown self.old self.new }
    {
        if number == 1 {
            self.ray = shown;
        }
    }

    /// The node in hand ended so, and is settled. On a deck with a ray a feasible vertex ends the search.
    fn settle(
        &mut self,
        alloc: Global,
        deck: &Deck,
        node: &mut NodeBox<'_>,
        taken: OpenNode,
        solved: Solved,
        end: NodeEnd,
    ) -> Result<Option<Ending>, Memory>
        requires formed { IsDeckNow deck.now }
        requires plain { deck.now.arcs ≡ [] }
        requires same_deck { node.old.deck ≡ deck.now }
        requires full { ¬ IsVoid deck.now node.old.limits }
        requires place { IsOpenAt self.old.growth taken.node }
        requires room { length self.old.growth.nodes + 2 ≤ MOST_NODES }
        requires depth { taken.key.depth < MOST_NODES }
        requires says { EndSays deck.now node.old.limits self.old.ray end }
        ensures { IfOk result (λ ending. HasSettled deck.now node.old.limits self.old taken solved end ending self.new) }
    {
        match end {
            NodeEnd::Vertex(point, y) => {
                if self.ray.is_some() && feasible(deck, &point).is_none() {
                    return Ok(Some(Ending::Found(point)));
                }
                let halt = self.at_vertex(alloc, deck, node, &taken, solved, point, y)?;
                Ok(halted(halt))
            }
            NodeEnd::Empty(y) => {
                self.empty(taken.node, solved, y);
                Ok(None)
            }
            NodeEnd::Stopped(why, own) => {
                let halt = stopped(deck, node, taken, solved, why, own);
                Ok(Some(Ending::Halted(halt)))
            }
        }
    }
}

/// A stop as the ending of a run.
fn halted(halt: Option<Halt>) -> Option<Ending>
    ensures { result ≡ ending_of halt }
{
    match halt {
        Some(halt) => Some(Ending::Halted(halt)),
        None => None,
    }
}

/// The stop at the budget of nodes.
fn out_of_nodes(hand: OpenNode) -> Halt
    ensures cause { result.why ≡ Why.Nodes }
    ensures none { result.solved ≡ None }
    ensures hand { result.hand ≡ hand }
{
    Halt {
        why: Why::Nodes,
        hand,
        solved: None,
    }
}

/// The stop in the solving of the node in hand, which keeps its own multipliers where they were read.
fn stopped(
    deck: &Deck,
    node: &NodeBox<'_>,
    taken: OpenNode,
    solved: Solved,
    why: Why,
    own: Option<Multipliers>,
) -> Halt
    requires same_deck { node.now.deck ≡ deck.now }
    requires full { ¬ IsVoid deck.now node.now.limits }
    requires no_arcs { deck.now.arcs ≡ [] }
    requires own { IfSome own (λ y. OwnSays deck.now (plain_multipliers y)) }
    ensures { HasStoppedAt deck.now node.now.limits taken solved why (option_map plain_multipliers own) result }
{
    let hand = match own {
        Some(y) => with_own(deck, node, taken, y),
        None => taken,
    };
    Halt {
        why,
        hand,
        solved: Some(solved),
    }
}

/// The node under its own multipliers.
fn with_own(deck: &Deck, node: &NodeBox<'_>, taken: OpenNode, y: Multipliers) -> OpenNode
    requires same_deck { node.now.deck ≡ deck.now }
    requires full { ¬ IsVoid deck.now node.now.limits }
    requires no_arcs { deck.now.arcs ≡ [] }
    requires own { OwnSays deck.now (plain_multipliers y) }
    ensures { HasOwn deck.now node.now.limits taken (plain_multipliers y) result }
{
    let Key { id, depth, .. } = taken.key;
    OpenNode {
        key: key_of(deck, node, id, depth, &y),
        node: taken.node,
        y,
    }
}
