//! The opening of a board under number 1.

ghost use Rattle.std.specs.Prelude.{◌≡◌, ◌-◌, ◌≤◌, [], IfOk};
ghost use Rattle.um_model.specs.Values.{DeckValue};
ghost use Rattle.um_lp.specs.Boards.{IsStart};
ghost use Rattle.um_duality.specs.Relaxed.{deck_frame};
ghost use Rattle.um_relax.specs.Relaxations.{IsRelaxationOf};
ghost use Rattle.um_opening.specs.Openings.{OpenedAs};

use std::alloc::Global;
use um_lp::{Board, Costs, Relaxation};
use um_model::Why;
use um_num::{List, Memory};
use um_ray::{Started, start};

/// How the opening of a board ended.
#[derive(Debug, Drop)]
pub enum Opened {
    /// The board takes the given costs, and a node may be begun on it.
    WithCosts,
    /// The deck has this ray, a number for each column, below 2^62 in size. The board takes no costs now.
    WithRay(List<i128>),
    /// The search stops for this cause.
    Stopped(Why),
}

/// Opens a board that starts: solves the start problem where a cost wants an infinite end, and makes the
/// board anew without costs where that shows a ray. Each pivot takes one from `left`. After a stop the board
/// is as the start problem left it. The error is want of memory.
pub fn open<B: Board>(
    alloc: Global,
    relaxation: &Relaxation,
    board: &mut B,
    left: &mut u64,
) -> Result<Opened, Memory>
    ghost d: { DeckValue }
    requires no_arcs { d.arcs ≡ [] }
    requires relaxed { IsRelaxationOf d relaxation.now }
    requires starts { IsStart (deck_frame d) (B.state board.old) }
    ensures spends { left.new ≤ left.old }
    ensures opened { IfOk result (λ opened. OpenedAs d (B.state board.old) (left.old - left.new) left.old opened (B.state board.new)) }
    ensures keeps { B.Keeps board.old board.new }
{
    let number = 1;
    let before = *left;
    let started = start(alloc, relaxation, board, left)?;
    let step = before - *left;
    match started {
        Started::Ready => Ok(Opened::WithCosts),
        Started::Ray(ray) => match board.reset(Costs::Nothing) {
            Ok(()) => Ok(Opened::WithRay(ray)),
            Err(wide) => Ok(Opened::Stopped(Why::Value { number, step, wide })),
        },
        Started::Large => Ok(Opened::Stopped(Why::Ray)),
        Started::OutOfPivots => Ok(Opened::Stopped(Why::Pivots)),
        Started::Wide(wide) => Ok(Opened::Stopped(Why::Pivot { number, step, wide })),
    }
}
