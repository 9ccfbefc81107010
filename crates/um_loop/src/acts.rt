//! The acts of a search.

ghost use Rattle.std.specs.Prelude.{◌≡◌, ◌≤◌, ◌+◌, ◌<ℤ◌, ◌↔◌, [], ◌++◌, length, pos, IsTrue, OnOk, IfSome};
ghost use Rattle.um_model.specs.Branches.{Fits};
ghost use Rattle.um_model.specs.Values.{plain_point};
ghost use Rattle.um_model.specs.declared.limits.TheConstants.{MOST_NODES};
ghost use Rattle.um_multipliers.specs.PlainMultipliers.{plain_multipliers};
ghost use Rattle.um_bound.specs.Usable.{AreUsable};
ghost use Rattle.um_point.specs.SmallPoints.{FitsMachine};
ghost use Rattle.um_tree.specs.Growths.{IsOpenAt};
ghost use Rattle.um_nodes.specs.Keys.{IsKey};
ghost use Rattle.um_progress.specs.Searches.{IsLesser};
ghost use Rattle.um_children.specs.NewChildren.{entries_of};
ghost use Rattle.um_loop.specs.Steps.{IsBelowBest, IsBestOf, HasClosed, emptied_search, HasBranched};

use crate::search::Search;
use std::alloc::Global;
use std::cmp::Ordering;
use um_box::NodeBox;
use um_children::{copy_of, make_child};
use um_deck::Deck;
use um_model::{Branch, Multipliers, Node, Point, Side, Solved, What};
use um_nodes::{OpenNode, OpenNodes};
use um_num::{Frac, Memory, compare};
use um_point::{feasible, objective};
use um_progress::Incumbent;

impl Search {
    /// The node becomes a Bounded leaf, whose bound is counted.
    pub(crate) fn close(&mut self, id: u32, solved: Option<Solved>, y: Multipliers, bound: &Frac)
        requires { IsOpenAt self.old.growth id }
        ensures { HasClosed self.old id solved (plain_multipliers y) bound.now self.new }
    {
        let what = What::Bounded(y);
        self.growth.settle(id, Node { solved, what });
        self.least = Some(lesser(self.least, bound));
    }

    /// The node becomes an Empty leaf.
    pub(crate) fn empty(&mut self, id: u32, solved: Solved, y: Multipliers)
        requires { IsOpenAt self.old.growth id }
        ensures { self.new ≡ emptied_search self.old id solved (plain_multipliers y) }
    {
        let what = What::Empty(y);
        let solved = Some(solved);
        self.growth.settle(id, Node { solved, what });
    }

    /// The node becomes a split, and its open children wait under its multipliers. `depth` is that of
    /// the children. The error is want of memory.
    pub(crate) fn branch(
        &mut self,
        alloc: Global,
        deck: &Deck,
        node: &mut NodeBox<'_>,
        id: u32,
        depth: u32,
        solved: Solved,
        branch: Branch,
        y: Multipliers,
    ) -> Result<(), Memory>
        requires place { IsOpenAt self.old.growth id }
        requires room { length self.old.growth.nodes + 2 ≤ MOST_NODES }
        requires same_deck { node.old.deck ≡ deck.now }
        requires fits { Fits deck.now node.old.limits branch }
        requires no_arcs { deck.now.arcs ≡ [] }
        requires usable { AreUsable (length deck.now.rows) (plain_multipliers y) }
        requires y0 { pos 0 <ℤ y.y0 }
        ensures { OnOk result (HasBranched deck.now node.old.limits self.old id depth solved branch (plain_multipliers y) self.new) }
    {
        let next = self.growth.len() as u32;
        let copy = copy_of(alloc, &y)?;
        let left = make_child(deck, node, &branch, Side::Left, next, depth, copy, alloc);
        let right = make_child(deck, node, &branch, Side::Right, next + 1, depth, y, alloc);
        self.growth
            .split(id, Some(solved), branch, left.node, right.node)?;
        add(&mut self.open, left.entry)?;
        add(&mut self.open, right.entry)?;
        Ok(())
    }
}

/// The entry waits, if there is one. The error is want of memory.
fn add(waiting: &mut OpenNodes, entry: Option<OpenNode>) -> Result<(), Memory>
    requires { IfSome entry (λ w. IsKey w.key) }
    ensures { OnOk result (waiting.new ≡ waiting.old ++ entries_of entry) }
{
    match entry {
        Some(entry) => waiting.put(entry),
        None => Ok(()),
    }
}

/// The lesser of a bound and one more.
pub fn lesser(least: Option<Frac>, bound: &Frac) -> Frac
    ensures { IsLesser least bound.now (Some result) }
{
    let Some(old) = least else { return *bound };
    match compare(old.num(), old.den(), bound.num(), bound.den()) {
        Ordering::Less | Ordering::Equal => old,
        Ordering::Greater => *bound,
    }
}

/// The point is the best then, where it is feasible and its objective is below that of the best so far.
pub(crate) fn improve(deck: &Deck, best: &mut Option<Incumbent>, point: Point)
    requires { FitsMachine deck.now (plain_point point) }
    ensures { IsBestOf deck.now (plain_point point) best.old best.new }
{
    if feasible(deck, &point).is_some() {
        return;
    }
    let objective = objective(deck, &point);
    if is_below_best(&objective, best) {
        *best = Some(Incumbent { point, objective });
    }
}

/// Whether the objective is below that of the best point so far; so it is where there is none.
fn is_below_best(objective: &Frac, best: &Option<Incumbent>) -> bool
    ensures { IsTrue result ↔ IsBelowBest objective.now best.now }
{
    let Some(old) = best else { return true };
    let old = &old.objective;
    match compare(old.num(), old.den(), objective.num(), objective.den()) {
        Ordering::Less | Ordering::Equal => false,
        Ordering::Greater => true,
    }
}
