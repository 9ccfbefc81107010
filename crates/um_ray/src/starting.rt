//! The start problem, solved on a board.

ghost use Rattle.std.specs.Prelude.{◌≡◌, ◌≢◌, ◌-◌, ◌^◌, ◌≤◌, ◌<ℤ◌, pos, [], IfOk};
ghost use Rattle.um_model.specs.Values.{DeckValue};
ghost use Rattle.um_model.specs.Boxes.{root};
ghost use Rattle.um_lp.specs.Boards.{IsStart};
ghost use Rattle.um_lp.specs.States.{width};
ghost use Rattle.um_duality.specs.Laws.{IsOnBox};
ghost use Rattle.um_duality.specs.Relaxed.{StandsFor, deck_frame};
ghost use Rattle.um_relax.specs.Relaxations.{IsRelaxationOf};
ghost use Rattle.um_ray.specs.Directions.{directions};
ghost use Rattle.um_ray.specs.Rays.{slope};
ghost use Rattle.um_ray.specs.Starts.{WantsOwnEnds, EndedAs, StartedAs, IsRead};

use crate::ends::{put_start_ends, wants_own_ends};
use std::alloc::Global;
use um_dual::Ended;
use um_lp::{Board, Costs, Relaxation, Wide};
use um_model::limits::RAY_SIZE;
use um_num::{Frac, List, Memory};
use um_relax::least_whole;

/// How a start ended.
#[derive(Debug, Drop)]
pub enum Started {
    /// Each end of the deck that a reduced cost wants is finite.
    Ready,
    /// The deck has this ray, a number for each column, below 2^62 in size.
    Ray(List<i128>),
    /// The deck has a ray, and one of its numbers is larger.
    Large,
    /// A step is due and none is left.
    OutOfPivots,
    /// An operation is out of range.
    Wide(Wide),
}

/// Makes a board, as it starts, one whose reduced costs want finite ends of the deck alone, or finds a
/// ray. Each pivot takes one from `left`; with as many left as 3 to the power of the board's columns it never
/// runs out of them. The error is want of memory.
pub fn start<B: Board>(
    alloc: Global,
    relaxation: &Relaxation,
    board: &mut B,
    left: &mut u64,
) -> Result<Started, Memory>
    ghost d: { DeckValue }
    requires no_arcs { d.arcs ≡ [] }
    requires relaxed { IsRelaxationOf d relaxation.now }
    requires starts { IsStart (deck_frame d) (B.state board.old) }
    ensures spends { left.new ≤ left.old }
    ensures started { IfOk result (λ started. StartedAs d (B.state board.old) (left.old - left.new) left.new started (B.state board.new)) }
    ensures enough { 3 ^ width (B.state board.old).frame ≤ left.old → IfOk result (λ started. started ≢ Started.OutOfPivots) }
    ensures keeps { B.Keeps board.old board.new }
{
    match wants_own_ends(relaxation, board) {
        Ok(true) => Ok(Started::Ready),
        Ok(false) => solve_start(alloc, relaxation, board, left),
        Err(wide) => Ok(Started::Wide(wide)),
    }
}

/// Puts the ends of the start problem on the board, takes its steps, and reads what they ended at.
fn solve_start<B: Board>(
    alloc: Global,
    relaxation: &Relaxation,
    board: &mut B,
    left: &mut u64,
) -> Result<Started, Memory>
    ghost d: { DeckValue }
    requires no_arcs { d.arcs ≡ [] }
    requires relaxed { IsRelaxationOf d relaxation.now }
    requires starts { IsStart (deck_frame d) (B.state board.old) }
    requires needed { ¬ WantsOwnEnds d (B.state board.old) }
    ensures spends { left.new ≤ left.old }
    ensures started { IfOk result (λ started. StartedAs d (B.state board.old) (left.old - left.new) left.new started (B.state board.new)) }
    ensures enough { 3 ^ width (B.state board.old).frame ≤ left.old → IfOk result (λ started. started ≢ Started.OutOfPivots) }
    ensures keeps { B.Keeps board.old board.new }
{
    match put_start_ends(relaxation, board) {
        Ok(()) => {}
        Err(wide) => return Ok(Started::Wide(wide)),
    }
    match um_dual::solve(board, left) {
        Ended::Optimal => at_end(alloc, relaxation, board),
        Ended::NoPoint(_) => unreachable!(),
        Ended::OutOfPivots => Ok(Started::OutOfPivots),
        Ended::Wide(wide) => Ok(Started::Wide(wide)),
    }
}

/// Reads what the steps ended at: a least value of 0, or a ray.
fn at_end<B: Board>(alloc: Global, relaxation: &Relaxation, board: &B) -> Result<Started, Memory>
    ghost d: { DeckValue }
    requires relaxed { IsRelaxationOf d relaxation.now }
    requires on { IsOnBox (directions d) (root (directions d)) (B.state board.now) }
    requires given { (B.state board.now).costs ≡ Costs.Given }
    ensures { IfOk result (λ started. EndedAs d started (B.state board.now)) }
{
    match wants_own_ends(relaxation, board) {
        Ok(true) => Ok(Started::Ready),
        Ok(false) => read_ray(alloc, relaxation, board),
        Err(wide) => Ok(Started::Wide(wide)),
    }
}

/// Reads the ray.
fn read_ray<B: Board>(alloc: Global, relaxation: &Relaxation, board: &B) -> Result<Started, Memory>
    ghost d: { DeckValue }
    requires relaxed { IsRelaxationOf d relaxation.now }
    requires on { IsOnBox (directions d) (root (directions d)) (B.state board.now) }
    requires given { (B.state board.now).costs ≡ Costs.Given }
    requires falls { slope d (B.state board.now) <ℤ pos 0 }
    ensures { IfOk result (λ started. EndedAs d started (B.state board.now)) }
{
    match column_values(alloc, relaxation, board)? {
        Ok(values) => match least_whole(alloc, values.as_slice(), RAY_SIZE as u64)? {
            Some(whole) => Ok(Started::Ray(whole.parts)),
            None => Ok(Started::Large),
        },
        Err(wide) => Ok(Started::Wide(wide)),
    }
}

/// The values of the deck's columns.
fn column_values<B: Board>(
    alloc: Global,
    relaxation: &Relaxation,
    board: &B,
) -> Result<Result<List<Frac>, Wide>, Memory>
    ghost d: { DeckValue }
    requires relaxed { IsRelaxationOf d relaxation.now }
    requires stands { StandsFor d (B.state board.now) }
    ensures { IfOk result (IsRead (B.state board.now)) }
{
    let mut values = List::new(alloc);
    for column in 0..relaxation.columns {
        match board.value(column) {
            Ok(value) => values.push(value)?,
            Err(wide) => return Ok(Err(wide)),
        }
    }
    Ok(Ok(values))
}
