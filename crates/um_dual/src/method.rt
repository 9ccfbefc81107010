//! One step of the method, and the run of steps.

ghost use Rattle.std.specs.Prelude.{◌≡◌, ◌≢◌, ◌≤◌, ◌-◌, ◌^◌, IfOk, IfErr};
ghost use Rattle.um_lp.specs.DualSteps.{IsNext, AreSteps, IsDualFeasible};
ghost use Rattle.um_lp.specs.States.{width};
ghost use Rattle.um_dual.specs.Methods.{next_of, IsRefusedNext, IsStepped, HasEnded};
ghost use Rattle.um_dual.specs.Used.{is_used, count_below};

use crate::{entering, leaving};
use um_lp::{At, Board, Wide};

/// What comes next in a state.
#[derive(Clone, Copy, PartialEq, Eq, Debug)]
pub enum Choice {
    /// Every basic column is within its ends.
    Ended,
    /// The row's basic column is outside its ends, and no column may enter.
    NoPoint(u32),
    /// The column enters, and the row's basic column leaves to this end.
    Pivot { row: u32, column: u32, to: At },
}

/// What a step came to.
#[derive(Clone, Copy, PartialEq, Eq, Debug)]
pub enum Stepped {
    Pivoted,
    /// No step is due: every basic column is within its ends.
    Ended,
    /// No step is due: no column may enter for this row.
    NoPoint(u32),
    /// An operation is out of range, and the board is as it was.
    Wide(Wide),
}

/// How a run of steps ended.
#[derive(Clone, Copy, PartialEq, Eq, Debug)]
pub enum Ended {
    /// Every basic column is within its ends.
    Optimal,
    /// No column may enter for this row.
    NoPoint(u32),
    /// A step is due and none is left.
    OutOfPivots,
    /// An operation of the next step is out of range.
    Wide(Wide),
}

/// What comes next.
pub fn next<B: Board>(board: &B) -> Result<Choice, Wide>
    ensures next { IfOk result (λ choice. IsNext (B.state board.now) (next_of choice)) }
    ensures wide { IfErr result (IsRefusedNext (B.state board.now)) }
{
    let Some(leaving) = leaving(board)? else {
        return Ok(Choice::Ended);
    };
    Ok(match entering(board, leaving.row, leaving.to)? {
        Some(entering) => Choice::Pivot {
            row: leaving.row,
            column: entering.column,
            to: leaving.to,
        },
        None => Choice::NoPoint(leaving.row),
    })
}

/// Takes the next step, if one is due.
pub fn step<B: Board>(board: &mut B) -> Stepped
    requires { IsDualFeasible (B.state board.old) }
    ensures stepped { IsStepped (B.state board.old) result (B.state board.new) }
    ensures feasible { IsDualFeasible (B.state board.new) }
    ensures keeps { B.Keeps board.old board.new }
{
    match next(board) {
        Err(wide) => Stepped::Wide(wide),
        Ok(Choice::Ended) => Stepped::Ended,
        Ok(Choice::NoPoint(row)) => Stepped::NoPoint(row),
        Ok(Choice::Pivot { row, column, to }) => match board.pivot(row, column, to) {
            Ok(()) => Stepped::Pivoted,
            Err(wide) => Stepped::Wide(wide),
        },
    }
}

/// Takes steps until none is due. Each takes one from `left`.
pub fn solve<B: Board>(board: &mut B, left: &mut u64) -> Ended
    requires { IsDualFeasible (B.state board.old) }
    ensures falls { left.new ≤ left.old }
    ensures steps { AreSteps (left.old - left.new) (B.state board.old) (B.state board.new) }
    ensures ended { HasEnded (B.state board.new) left.new result }
    ensures feasible { IsDualFeasible (B.state board.new) }
    ensures enough { 3 ^ count_below (width (B.state board.old).frame) (is_used (B.state board.old)) ≤ left.old → result ≢ Ended.OutOfPivots }
    ensures keeps { B.Keeps board.old board.new }
{
    'steps: loop {
        match next(board) {
            Err(wide) => return Ended::Wide(wide),
            Ok(Choice::Ended) => return Ended::Optimal,
            Ok(Choice::NoPoint(row)) => return Ended::NoPoint(row),
            Ok(Choice::Pivot { row, column, to }) => {
                if *left == 0 {
                    return Ended::OutOfPivots;
                }
                match board.pivot(row, column, to) {
                    Ok(()) => *left -= 1,
                    Err(wide) => return Ended::Wide(wide),
                }
            }
        }
    }
}
