//! A search between two acts, and its beginning.

ghost use Rattle.std.specs.Prelude.{◌≡◌, ℕ, [], None, IfOk};
ghost use Rattle.um_model.specs.Boxes.{IsVoid, root as root_of};
ghost use Rattle.um_lp.specs.States.{State};
ghost use Rattle.um_lp.specs.Boards.{IsBoard, IsStart};
ghost use Rattle.um_duality.specs.Relaxed.{deck_frame};
ghost use Rattle.um_loop.specs.Checkables.{AreCheckable};
ghost use Rattle.um_loop.specs.Goings.{IsGoing};

use std::alloc::Global;
use um_box::NodeBox;
use um_children::{key_of, one_and_none};
use um_deck::Deck;
use um_model::{Node, Point, Solved, What, Why};
use um_nodes::{OpenNode, OpenNodes};
use um_num::{Frac, List, Memory};
use um_progress::Incumbent;
use um_tree::Growth;

/// A search between two acts.
#[derive(Debug, Drop)]
pub struct Search {
    pub growth: Growth,
    /// The nodes that wait.
    pub open: OpenNodes,
    /// The best point so far.
    pub incumbent: Option<Incumbent>,
    /// The least bound of the Bounded leaves; `None` where there are none.
    pub least: Option<Frac>,
    /// How many nodes have a number, the one that is being solved too.
    pub solved: u32,
    /// A ray of the deck, where the start has shown one: then the search looks for a feasible point alone,
    /// on a board without costs.
    pub ray: Option<List<i128>>,
}

impl Search {
    /// A search in which the root waits alone, with the multipliers 1 and none: [`Search::run`] may run it on
    /// any board that starts, with any number of pivots. For now of decks without arcs. The error is want of
    /// memory.
    pub fn new(alloc: Global, deck: &Deck, root: &NodeBox<'_>) -> Result<Search, Memory>
        requires root { root.now ≡ record { deck = deck.now; limits = root_of deck.now } }
        requires full { ¬ IsVoid deck.now (root_of deck.now) }
        requires no_arcs { deck.now.arcs ≡ [] }
        ensures going { (start : State) (most : ℕ) → IsStart (deck_frame deck.now) start → IsBoard start → IfOk result (λ search. IsGoing deck.now start most None search start most) }
        ensures checkable { IfOk result (λ search. AreCheckable deck.now search.growth) }
        ensures solved { IfOk result (λ search. search.solved ≡ 0) }
    {
        let what = What::OpenLeaf(one_and_none(alloc));
        let growth = Growth::new(alloc, Node { solved: None, what })?;
        let y = one_and_none(alloc);
        let key = key_of(deck, root, 0, 0, &y);
        let mut open = OpenNodes::new(alloc);
        open.put(OpenNode { key, node: 0, y })?;
        Ok(Search {
            growth,
            open,
            incumbent: None,
            least: None,
            solved: 0,
            ray: None,
        })
    }
}

/// Where a run of the loop ends while nodes may wait.
#[derive(Debug, Drop)]
pub enum Ending {
    /// It stopped early.
    Halted(Halt),
    /// The deck has a ray, and this point is feasible: the objective has no end.
    Found(Point),
}

/// An early stop: its cause, and the node in hand, which stays open, with the multipliers that it keeps.
#[derive(Debug, Drop)]
pub struct Halt {
    pub why: Why,
    pub hand: OpenNode,
    /// The number of the node in hand, where it got one.
    pub solved: Option<Solved>,
}
