//! The relaxation of a node's box, solved on a board.

ghost use Rattle.std.specs.Prelude.{◌≡◌, ◌+◌, ◌-◌, ◌<◌, ◌≤◌, ◌^◌, [], IfOk};
ghost use Rattle.um_duality.specs.Relaxed.{StandsFor, deck_frame};
ghost use Rattle.um_lp.specs.Boards.{IsBoard};
ghost use Rattle.um_lp.specs.DualSteps.{IsNext, Ended as HasEnded, NoPoint, IsDualFeasible};
ghost use Rattle.um_lp.specs.Relaxations.{frame_of};
ghost use Rattle.um_lp.specs.States.{State};
ghost use Rattle.um_model.specs.Boxes.{IsVoid};
ghost use Rattle.um_model.specs.WellFormed.{IsDeck};
ghost use Rattle.um_relax.specs.Reboxings.{WantsFiniteEnds};
ghost use Rattle.um_relax.specs.Relaxations.{IsRelaxationOf};
ghost use Rattle.um_solving.specs.Endings.{EndedAs, HasEndedAs, RefusedAs};
ghost use Rattle.um_relax.specs.Runs.{IsReady};

use std::alloc::Global;
use um_box::NodeBox;
use um_dual::Ended;
use um_lp::Board;
use um_model::{Multipliers, Point, Why};
use um_num::Memory;
use um_relax::{Large, Reboxed, Relaxation, farkas, multipliers, rebox, vertex};

/// How a node ended.
#[derive(Debug, Drop)]
pub enum NodeEnd {
    /// At this vertex, with the multipliers that bound the node's box.
    Vertex(Point, Multipliers),
    /// Without a point, with the multipliers that show it.
    Empty(Multipliers),
    /// Early, with the multipliers of its vertex where these were read.
    Stopped(Why, Option<Multipliers>),
}

/// Puts the ends of the node's box on the board, takes steps, and reads what they ended at.
///
/// The board may be in any state that stands for the deck, as the node before left it. `number` is
/// the node's, which the cause of a stop tells, and `early` how many pivots were made under it before.
/// Each pivot takes one from `left`. The error is want of memory.
pub fn solve_node<B: Board>(
    alloc: Global,
    number: u32,
    early: u64,
    node: &NodeBox<'_>,
    relaxation: &mut Relaxation,
    board: &mut B,
    left: &mut u64,
) -> Result<NodeEnd, Memory>
    requires formed { IsDeck node.now.deck }
    requires no_arcs { node.now.deck.arcs ≡ [] }
    requires relaxed { IsRelaxationOf node.now.deck relaxation.old }
    requires frame { frame_of relaxation.old ≡ deck_frame node.now.deck }
    requires board { IsBoard (B.state board.old) }
    requires stands { StandsFor node.now.deck (B.state board.old) }
    requires full { ¬ IsVoid node.now.deck node.now.limits }
    requires wanted { WantsFiniteEnds node.now.deck node.now.limits (B.state board.old) }
    requires few { early + left.old < 2 ^ 64 }
    ensures falls { left.new ≤ left.old }
    ensures same { relaxation.new ≡ relaxation.old }
    ensures ending { IfOk result (λ end. EndedAs node.now.deck node.now.limits (B.state board.old) early (left.old - left.new) left.old number end (B.state board.new)) }
{
    match rebox(relaxation, board, node) {
        Reboxed::Done => run_steps(alloc, number, early, node, relaxation, board, left),
        Reboxed::Full(_) => unreachable!(),
        Reboxed::Wide(wide) => {
            let step = early;
            Ok(NodeEnd::Stopped(Why::Value { number, step, wide }, None))
        }
    }
}

/// Takes steps on a board with the ends of the node's box, and reads what they ended at.
fn run_steps<B: Board>(
    alloc: Global,
    number: u32,
    early: u64,
    node: &NodeBox<'_>,
    relaxation: &Relaxation,
    board: &mut B,
    left: &mut u64,
) -> Result<NodeEnd, Memory>
    requires relaxed { IsRelaxationOf node.now.deck relaxation.now }
    requires frame { frame_of relaxation.now ≡ deck_frame node.now.deck }
    requires stands { StandsFor node.now.deck (B.state board.old) }
    requires feasible { IsDualFeasible (B.state board.old) }
    requires few { early + left.old < 2 ^ 64 }
    ensures falls { left.new ≤ left.old }
    ensures ending { (before : State) → IsReady node.now.deck node.now.limits before (B.state board.old) → IfOk result (λ end. EndedAs node.now.deck node.now.limits before early (left.old - left.new) left.old number end (B.state board.new)) }
{
    let most = *left;
    let ending = um_dual::solve(board, left);
    let step = early + (most - *left);
    match ending {
        Ended::Optimal => at_vertex(alloc, number, node, relaxation, board, step),
        Ended::NoPoint(row) => without_point(alloc, number, node, relaxation, board, row, step),
        Ended::OutOfPivots => Ok(NodeEnd::Stopped(Why::Pivots, None)),
        Ended::Wide(wide) => Ok(NodeEnd::Stopped(Why::Pivot { number, step, wide }, None)),
    }
}

/// Reads the multipliers and the vertex of a board whose basic columns are all within their ends.
fn at_vertex<B: Board>(
    alloc: Global,
    number: u32,
    node: &NodeBox<'_>,
    relaxation: &Relaxation,
    board: &B,
    step: u64,
) -> Result<NodeEnd, Memory>
    requires relaxed { IsRelaxationOf node.now.deck relaxation.now }
    requires frame { frame_of relaxation.now ≡ deck_frame node.now.deck }
    requires stands { StandsFor node.now.deck (B.state board.now) }
    requires ended { IsNext (B.state board.now) HasEnded }
    ensures { IfOk result (λ end. HasEndedAs node.now.deck node.now.limits step number end (B.state board.now)) }
{
    let y = match multipliers(alloc, relaxation, board) {
        Ok(y) => y,
        Err(large) => return refused(large, Why::Leaf { number }, number, step, None),
    };
    match vertex(alloc, relaxation, board) {
        Ok(point) => Ok(NodeEnd::Vertex(point, y)),
        Err(large) => refused(large, Why::Vertex { number }, number, step, Some(y)),
    }
}

/// Reads the multipliers of Farkas of a board that ended without a point.
fn without_point<B: Board>(
    alloc: Global,
    number: u32,
    node: &NodeBox<'_>,
    relaxation: &Relaxation,
    board: &B,
    row: u32,
    step: u64,
) -> Result<NodeEnd, Memory>
    requires relaxed { IsRelaxationOf node.now.deck relaxation.now }
    requires frame { frame_of relaxation.now ≡ deck_frame node.now.deck }
    requires stands { StandsFor node.now.deck (B.state board.now) }
    requires no_point { IsNext (B.state board.now) (NoPoint row) }
    ensures { IfOk result (λ end. HasEndedAs node.now.deck node.now.limits step number end (B.state board.now)) }
{
    match farkas(alloc, relaxation, board, row) {
        Ok(y) => Ok(NodeEnd::Empty(y)),
        Err(large) => refused(large, Why::Leaf { number }, number, step, None),
    }
}

/// Where a reading is refused: a large number stops the search for this cause, and an operation out
/// of range as a value.
fn refused(
    large: Large,
    why: Why,
    number: u32,
    step: u64,
    own: Option<Multipliers>,
) -> Result<NodeEnd, Memory>
    ensures { RefusedAs large why number step own result }
{
    match large {
        Large::Large => Ok(NodeEnd::Stopped(why, own)),
        Large::Wide(wide) => Ok(NodeEnd::Stopped(Why::Value { number, step, wide }, own)),
        Large::Memory => Err(Memory),
    }
}
