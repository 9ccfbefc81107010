//! The ends of the start problem, and whether it is needed.

ghost use Rattle.std.specs.Prelude.{◌≡◌, ◌<◌, ◌+◌, ◌↔◌, length, IfOk, IfErr, OnOk, IsTrue, IsSome, pos, ◌<ℤ◌};
ghost use Rattle.std.specs.Option.{ForSome};
ghost use Rattle.um_num.specs.Numbers.{IsInRange};
ghost use Rattle.um_model.specs.Values.{DeckValue};
ghost use Rattle.um_model.specs.Boxes.{root};
ghost use Rattle.um_lp.specs.Boards.{AreOrdered, IsWantedEndFinite};
ghost use Rattle.um_lp.specs.Refusals.{IsRefusedAt};
ghost use Rattle.um_lp.specs.States.{width, at_of, reduced_of};
ghost use Rattle.um_duality.specs.Boxed.{ends_on};
ghost use Rattle.um_duality.specs.Relaxed.{StandsFor};
ghost use Rattle.um_relax.specs.Reboxings.{WantsFiniteEnds, BoxedWhole, StoppedBefore};
ghost use Rattle.um_relax.specs.Relaxations.{IsRelaxationOf};
ghost use Rattle.um_ray.specs.Directions as Directions;
ghost use Rattle.um_ray.specs.Directions.{directions};
ghost use Rattle.um_ray.specs.Starts.{WantsOwnEnds};

use um_lp::{At, Board, Relaxation, Wide};
use um_num::Frac;

/// How far a column may fall: by 1 where it has no low end.
fn fall(low: Option<i128>) -> Option<i128>
    ensures { result ≡ Directions.fall low }
{
    match low {
        Some(_) => Some(0),
        None => Some(-1),
    }
}

/// How far it may rise: by 1 where it has no high end.
fn rise(high: Option<i128>) -> Option<i128>
    ensures { result ≡ Directions.rise high }
{
    match high {
        Some(_) => Some(0),
        None => Some(1),
    }
}

/// A side that is there is 0.
fn still(side: Option<i128>) -> Option<i128>
    ensures { result ≡ Directions.still side }
{
    match side {
        Some(_) => Some(0),
        None => None,
    }
}

/// The ends of a column or slack in the start problem.
fn start_ends(relaxation: &Relaxation, column: u32) -> (Option<i128>, Option<i128>)
    ghost d: { DeckValue }
    requires relaxed { IsRelaxationOf d relaxation.now }
    requires inside { column < length d.columns + length d.rows }
    ensures ends { result ≡ ends_on (directions d) (root (directions d)) column }
    ensures low_in { ForSome result.0 IsInRange }
    ensures high_in { ForSome result.1 IsInRange }
    ensures ordered { AreOrdered result }
{
    let place = column as usize;
    let low = relaxation.lows.as_slice()[place];
    let high = relaxation.highs.as_slice()[place];
    if column < relaxation.columns {
        (fall(low), rise(high))
    } else {
        (still(low), still(high))
    }
}

/// Puts the ends of the start problem on every column and slack, by rising index.
pub(crate) fn put_start_ends<B: Board>(relaxation: &Relaxation, board: &mut B) -> Result<(), Wide>
    ghost d: { DeckValue }
    requires relaxed { IsRelaxationOf d relaxation.now }
    requires stands { StandsFor d (B.state board.old) }
    requires wanted { WantsFiniteEnds (directions d) (root (directions d)) (B.state board.old) }
    ensures done { OnOk result (BoxedWhole (directions d) (root (directions d)) (B.state board.old) (B.state board.new)) }
    ensures stopped { IfErr result (λ w. StoppedBefore (directions d) (root (directions d)) w (B.state board.old) (B.state board.new)) }
    ensures keeps { B.Keeps board.old board.new }
{
    let count = board.columns();
    for column in 0..count {
        let (low, high) = start_ends(relaxation, column);
        board.rebox(column, low, high)?;
    }
    Ok(())
}

/// Whether the end that this reduced cost wants is finite: the low end for one above 0, the high end for
/// one below.
fn is_finite_for(cost: &Frac, low: Option<i128>, high: Option<i128>) -> bool
    ensures { IsTrue result ↔ ((pos 0 <ℤ cost.now.num → IsSome low) × (cost.now.num <ℤ pos 0 → IsSome high)) }
{
    if cost.num() > 0 {
        low.is_some()
    } else if cost.num() < 0 {
        high.is_some()
    } else {
        true
    }
}

/// Whether the end of the deck that a column's reduced cost wants is finite.
fn wants_own_end<B: Board>(relaxation: &Relaxation, board: &B, column: u32) -> Result<bool, Wide>
    ghost d: { DeckValue }
    requires relaxed { IsRelaxationOf d relaxation.now }
    requires stands { StandsFor d (B.state board.now) }
    requires inside { column < width (B.state board.now).frame }
    ensures wants { IfOk result (λ wants. IsTrue wants ↔ IsWantedEndFinite (at_of (B.state board.now) column) (reduced_of (B.state board.now) column) (ends_on d (root d) column)) }
    ensures wide { IfErr result (IsRefusedAt (B.state board.now)) }
{
    if board.at(column) == At::Basic {
        return Ok(true);
    }
    let cost = board.cost(column)?;
    let place = column as usize;
    let low = relaxation.lows.as_slice()[place];
    let high = relaxation.highs.as_slice()[place];
    Ok(is_finite_for(&cost, low, high))
}

/// Whether each end of the deck that a reduced cost wants is finite.
pub(crate) fn wants_own_ends<B: Board>(relaxation: &Relaxation, board: &B) -> Result<bool, Wide>
    ghost d: { DeckValue }
    requires relaxed { IsRelaxationOf d relaxation.now }
    requires stands { StandsFor d (B.state board.now) }
    ensures wants { IfOk result (λ wants. IsTrue wants ↔ WantsOwnEnds d (B.state board.now)) }
    ensures wide { IfErr result (IsRefusedAt (B.state board.now)) }
{
    for column in 0..board.columns() {
        if !wants_own_end(relaxation, board, column)? {
            return Ok(false);
        }
    }
    Ok(true)
}
