//! The last act of a search: its answer.

ghost use Rattle.std.specs.Prelude.{◌≡◌, ℤ, ◌≤◌, ◌<◌, ◌^◌, ◌<ℤ◌, ◌↔◌, [], pos, unsigned_abs, Some, None, option_map, IsTrue, IfOk};
ghost use Rattle.um_multipliers.specs.PlainMultipliers.{plain_multipliers};
ghost use Rattle.um_model.specs.Accepted.{IsAccepted, bound_in};
ghost use Rattle.um_model.specs.AnswerValues.{plain_answer, OpenLeaf};
ghost use Rattle.um_model.specs.Checkable.{IsCheckable};
ghost use Rattle.um_model.specs.LeafValue.{leaf_value};
ghost use Rattle.um_model.specs.Right.{IsRight};
ghost use Rattle.um_model.specs.Values.{plain_point};
ghost use Rattle.um_model.specs.WellFormed.{IsDeck};
ghost use Rattle.um_model.specs.declared.leaf.Leaf.{Leaf};
ghost use Rattle.um_model.specs.declared.limits.TheConstants.{MULTIPLIER_SIZE};
ghost use Rattle.um_tree.specs.Growths.{settled};
ghost use Rattle.um_cover.specs.Sites.{box_at};
ghost use Rattle.um_nodes.specs.Keys.{IsKey};
ghost use Rattle.um_progress.specs.Incumbents.{point_of, objective_of};
ghost use Rattle.um_progress.specs.Stops.{Counts, bound_of as bound_in_all};
ghost use Rattle.um_progress.specs.Waits.{WaitsIn, KeyIs};
ghost use Rattle.um_turns.specs.Turns.{IsNoGrid};
ghost use Rattle.um_loop.specs.Checkables.{AreCheckable};
ghost use Rattle.um_search.specs.declared.budget.Budget.{Budget};
ghost use Rattle.um_search.specs.Conditions.{Task};
ghost use Rattle.um_search.specs.Endings.{HasRunOut, IsHalted, IsFound, kind_of_over};
ghost use Rattle.um_search.specs.Told.{TellsAnswer};

use std::alloc::Global;
use um_bound::bound_of;
use um_deck::Deck;
use um_loop::{Halt, Search, is_endless, lesser};
use um_model::{Answer, AnswerKind, Node, Point, Solved, Tree, What};
use um_nodes::{Key, OpenNode};
use um_num::{Frac, Memory};
use um_progress::Incumbent;
use um_tree::Growth;

/// The answer of a search in which no node waits: Optimal where a point was found, else Infeasible. The
/// error is want of memory.
pub(crate) fn finish(alloc: Global, search: Search) -> Result<Answer, Memory>
    ghost task: { Task }
    requires formed { IsDeck task.deck }
    requires no_arcs { task.deck.arcs ≡ [] }
    requires run_out { HasRunOut task.deck task.budget.pivots search }
    requires within { search.solved ≤ task.budget.nodes }
    requires checkable { AreCheckable task.deck search.growth }
    ensures accepted { IfOk result (λ answer. IsAccepted task.deck (plain_answer answer)) }
    ensures right { IfOk result (λ answer. IsRight task.deck (plain_answer answer)) }
    ensures checkable { IfOk result (λ answer. IsCheckable task.deck (plain_answer answer)) }
    ensures tells { IfOk result (λ answer. TellsAnswer task.deck task.budget (plain_answer answer)) }
{
    let Search {
        growth,
        open: _open,
        incumbent,
        least,
        solved: _solved,
        ray: _ray,
    } = search;
    let tree = growth.into_tree(alloc)?;
    let kind = kind_of_over(&incumbent);
    let (objective, point) = parts(incumbent);
    Ok(Answer {
        kind,
        why: None,
        tolerance: 0,
        objective,
        bound: least,
        point,
        ray: None,
        tree,
    })
}

/// The answer of a search that stopped early: each open node keeps its multipliers in the tree, and the
/// bound is the least of all nodes. The error is want of memory.
pub(crate) fn stop(alloc: Global, deck: &Deck, search: Search, halt: Halt) -> Result<Answer, Memory>
    ghost budget: { Budget }
    requires formed { IsDeck deck.now }
    requires no_arcs { deck.now.arcs ≡ [] }
    requires halted { IsHalted deck.now budget.pivots budget.nodes search halt }
    requires no_grid { IsNoGrid halt.why }
    requires within { search.solved ≤ budget.nodes }
    requires checkable { AreCheckable deck.now search.growth }
    ensures accepted { IfOk result (λ answer. IsAccepted deck.now (plain_answer answer)) }
    ensures right { IfOk result (λ answer. IsRight deck.now (plain_answer answer)) }
    ensures checkable { IfOk result (λ answer. IsCheckable deck.now (plain_answer answer)) }
    ensures tells { IfOk result (λ answer. TellsAnswer deck.now budget (plain_answer answer)) }
{
    let Halt { why, hand, solved } = halt;
    let Search {
        mut growth,
        mut open,
        incumbent,
        least,
        solved: _solved,
        ray: _ray,
    } = search;
    let closed = Bounds {
        endless: false,
        least,
    };
    let mut bounds = leave_open(deck, &mut growth, closed, hand, solved);
    'entries: while let Some(entry) = open.pop() {
        bounds = leave_open(deck, &mut growth, bounds, entry, None);
    }
    let tree = growth.into_tree(alloc)?;
    let bound = bound_of_all(&bounds);
    let (objective, point) = parts(incumbent);
    Ok(Answer {
        kind: why.kind(),
        why: Some(why),
        tolerance: 0,
        objective,
        bound,
        point,
        ray: None,
        tree,
    })
}

/// The answer of a search that found a feasible point of a deck with a ray: the objective has no end.
pub(crate) fn unbounded(alloc: Global, search: Search, point: Point) -> Answer
    ghost task: { Task }
    requires formed { IsDeck task.deck }
    requires no_arcs { task.deck.arcs ≡ [] }
    requires found { IsFound task.deck task.budget.pivots search (plain_point point) }
    requires within { search.solved ≤ task.budget.nodes }
    ensures accepted { IsAccepted task.deck (plain_answer result) }
    ensures right { IsRight task.deck (plain_answer result) }
    ensures checkable { IsCheckable task.deck (plain_answer result) }
    ensures tells { TellsAnswer task.deck task.budget (plain_answer result) }
{
    Answer {
        kind: AnswerKind::Unbounded,
        why: None,
        tolerance: 0,
        objective: None,
        bound: None,
        point: Some(point),
        ray: search.ray,
        tree: Tree::new(alloc),
    }
}

/// The kind of the answer of a search in which no node waits.
fn kind_of_over(incumbent: &Option<Incumbent>) -> AnswerKind
    ensures { result ≡ kind_of_over incumbent.now }
{
    match incumbent {
        Some(_) => AnswerKind::Optimal,
        None => AnswerKind::Infeasible,
    }
}

/// What is known of some nodes' bounds.
#[derive(Clone, Copy, Debug)]
pub(crate) struct Bounds {
    /// One of them has none.
    pub(crate) endless: bool,
    /// The least of the others.
    pub(crate) least: Option<Frac>,
}

/// The node becomes an open leaf with the multipliers of the entry, and its bound is counted.
fn leave_open(
    deck: &Deck,
    growth: &mut Growth,
    bounds: Bounds,
    entry: OpenNode,
    solved: Option<Solved>,
) -> Bounds
    requires { WaitsIn deck.now growth.old entry }
    ensures left { growth.new ≡ settled growth.old entry.node (record { solved = solved; what = OpenLeaf (plain_multipliers entry.y) }) }
    ensures counts { Counts bounds.endless bounds.least (bound_in deck.now entry.y.y0 (leaf_value deck.now (box_at deck.now growth.old entry.node) (plain_multipliers entry.y))) result.endless result.least }
{
    let counted = count(deck, bounds, &entry.key);
    let what = What::OpenLeaf(entry.y);
    growth.settle(entry.node, Node { solved, what });
    counted
}

/// The bounds with that of one more node, by its key, of whichever multipliers and value it is.
fn count(deck: &Deck, bounds: Bounds, key: &Key) -> Bounds
    requires key { IsKey key.now }
    requires y0 { key.now.y0 <ℤ pos MULTIPLIER_SIZE }
    requires value { unsigned_abs key.now.value < 2 ^ 126 }
    ensures { (leaf : Leaf) (y0 : ℤ) → pos 0 <ℤ y0 → KeyIs leaf y0 key.now → Counts bounds.endless bounds.least (bound_in deck.now y0 leaf) result.endless result.least }
{
    if is_endless(key) {
        return Bounds {
            endless: true,
            least: bounds.least,
        };
    }
    let bound = bound_of(deck, key.y0, key.value);
    Bounds {
        endless: bounds.endless,
        least: Some(lesser(bounds.least, &bound)),
    }
}

/// The least bound, if none is missing.
fn bound_of_all(bounds: &Bounds) -> Option<Frac>
    ensures { result ≡ bound_in_all bounds.now.endless bounds.now.least }
{
    if bounds.endless { None } else { bounds.least }
}

/// The objective of the best point, and the point.
fn parts(incumbent: Option<Incumbent>) -> (Option<Frac>, Option<Point>)
    ensures objective { result.0 ≡ objective_of incumbent }
    ensures point { option_map plain_point result.1 ≡ point_of incumbent }
{
    match incumbent {
        Some(Incumbent { point, objective }) => (Some(objective), Some(point)),
        None => (None, None),
    }
}
