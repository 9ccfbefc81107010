//! The ends of a box on a board.

ghost use Rattle.std.specs.Prelude.{◌≡◌, ◌+◌, ◌<◌, [], length};
ghost use Rattle.um_model.specs.Boxes.{IsVoid};
ghost use Rattle.std.specs.Option.{ForSome};
ghost use Rattle.um_lp.specs.Boards.{AreOrdered};
ghost use Rattle.um_num.specs.Numbers.{IsInRange};
ghost use Rattle.um_duality.specs.Boxed.{ends_on};
ghost use Rattle.um_duality.specs.Relaxed.{StandsFor};
ghost use Rattle.um_relax.specs.Reboxings.{WantsFiniteEnds, IsReboxed};
ghost use Rattle.um_relax.specs.Relaxations.{IsRelaxationOf};

use crate::making::wide;
use um_box::NodeBox;
use um_lp::{Board, Relaxation, Wide};

/// What came of putting the ends of a box on a board.
#[derive(Clone, Copy, PartialEq, Eq, Debug)]
pub enum Reboxed {
    Done,
    /// The grid of this column is full, and an end of its box is none of its points.
    Full(u32),
    /// An operation is out of range; the ends that were set before it stay.
    Wide(Wide),
}

/// Puts the ends of a box on every column and slack, by rising index.
///
/// A nonbasic column goes to the end that its reduced cost wants, so that the board is dual feasible
/// then. The relaxation stays as it is, as a deck without arcs has no grid.
pub fn rebox<B: Board>(relaxation: &mut Relaxation, board: &mut B, node: &NodeBox<'_>) -> Reboxed
    requires relaxed { IsRelaxationOf node.now.deck relaxation.old }
    requires no_arcs { node.now.deck.arcs ≡ [] }
    requires stands { StandsFor node.now.deck (B.state board.old) }
    requires full { ¬ IsVoid node.now.deck node.now.limits }
    requires wanted { WantsFiniteEnds node.now.deck node.now.limits (B.state board.old) }
    ensures ends { IsReboxed node.now.deck node.now.limits result (B.state board.old) (B.state board.new) }
    ensures keeps { B.Keeps board.old board.new }
    ensures same { relaxation.new ≡ relaxation.old }
{
    let count = board.columns();
    for column in 0..count {
        let (low, high) = ends_on(relaxation, node, column);
        if let Err(wide) = board.rebox(column, low, high) {
            return Reboxed::Wide(wide);
        }
    }
    Reboxed::Done
}

/// The ends of a column in the box; those of its row for a slack.
fn ends_on(relaxation: &Relaxation, node: &NodeBox<'_>, column: u32) -> (Option<i128>, Option<i128>)
    requires relaxed { IsRelaxationOf node.now.deck relaxation.now }
    requires column { column < length node.now.deck.columns + length node.now.deck.rows }
    requires full { ¬ IsVoid node.now.deck node.now.limits }
    ensures ends { result ≡ ends_on node.now.deck node.now.limits column }
    ensures low_in { ForSome result.0 IsInRange }
    ensures high_in { ForSome result.1 IsInRange }
    ensures ordered { AreOrdered result }
{
    node.known();
    node.deck().known();
    if column < relaxation.columns {
        let (low, high) = node.ends(column);
        (wide(low), wide(high))
    } else {
        let place = column as usize;
        (
            relaxation.lows.as_slice()[place],
            relaxation.highs.as_slice()[place],
        )
    }
}
