//! The node of a number.

ghost use Rattle.std.specs.Prelude.{◌≡◌, ◌-◌, ◌≤◌, [], IfOk};
ghost use Rattle.um_lp.specs.Relaxations.{frame_of};
ghost use Rattle.um_duality.specs.Relaxed.{deck_frame};
ghost use Rattle.um_model.specs.Boxes.{IsVoid};
ghost use Rattle.um_model.specs.Values.{DeckValue};
ghost use Rattle.um_model.specs.WellFormed.{IsDeck};
ghost use Rattle.um_relax.specs.Relaxations.{IsRelaxationOf};
ghost use Rattle.um_solving.specs.RootBoxes.{IsWithinRoot};
ghost use Rattle.um_opening.specs.Numbers.{NumberEndedAs, MayGoOn};

use crate::opening::{Opened, open};
use std::alloc::Global;
use um_box::NodeBox;
use um_lp::{Board, Relaxation};
use um_num::{List, Memory};
use um_solving::{NodeEnd, solve_node};

/// How the node of a number ended.
#[derive(Debug, Drop)]
pub struct NumberEnd {
    pub end: NodeEnd,
    /// A ray of the deck, where the board was opened and the start problem has shown one.
    pub ray: Option<List<i128>>,
}

/// Solves the node of a number on a board: under number 1 the board is opened first, and under a later one
/// it is as the number before left it. Each pivot takes one from `left`. The error is want of memory.
pub fn solve_number<B: Board>(
    alloc: Global,
    number: u32,
    node: &NodeBox<'_>,
    relaxation: &mut Relaxation,
    board: &mut B,
    left: &mut u64,
) -> Result<NumberEnd, Memory>
    ghost d: { DeckValue }
    requires same_deck { node.now.deck ≡ d }
    requires formed { IsDeck node.now.deck }
    requires no_arcs { node.now.deck.arcs ≡ [] }
    requires relaxed { IsRelaxationOf node.now.deck relaxation.old }
    requires frame { frame_of relaxation.old ≡ deck_frame node.now.deck }
    requires goes_on { MayGoOn node.now.deck number (B.state board.old) }
    requires full { ¬ IsVoid node.now.deck node.now.limits }
    requires within { IsWithinRoot node.now.deck node.now.limits }
    ensures spends { left.new ≤ left.old }
    ensures same { relaxation.new ≡ relaxation.old }
    ensures ending { IfOk result (λ e. NumberEndedAs node.now.deck node.now.limits (B.state board.old) (left.old - left.new) left.old number e (B.state board.new)) }
{
    let before = *left;
    if number != 1 {
        let end = solve_node(alloc, number, 0, node, relaxation, board, left)?;
        return Ok(NumberEnd { end, ray: None });
    }
    let ray = match open(alloc, relaxation, board, left)? {
        Opened::WithCosts => None,
        Opened::WithRay(ray) => Some(ray),
        Opened::Stopped(why) => {
            let end = NodeEnd::Stopped(why, None);
            return Ok(NumberEnd { end, ray: None });
        }
    };
    let early = before - *left;
    let end = solve_node(alloc, number, early, node, relaxation, board, left)?;
    Ok(NumberEnd { end, ray })
}
