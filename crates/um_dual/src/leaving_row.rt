//! The row whose basic column leaves.

ghost use Rattle.std.specs.Prelude.{◌≡◌, ◌<◌, ◌+◌, ◌↔◌, IsTrue, IfOk, IfErr, MatchOption};
ghost use Rattle.um_num.specs.Sizes.{Fits};
ghost use Rattle.um_lp.specs.Refusals.{IsRefusedAt};
ghost use Rattle.um_lp.specs.DualSteps.{IsOutsideAt};
ghost use Rattle.um_lp.specs.States.{basic_of, value_of};
ghost use Rattle.um_dual.specs.Choices.{IsWithinEnds, IsThereBefore, LeavesBelow, IsLeaving, IsRefusedLeaving};

use um_lp::{At, Board, Wide, is_above_end, is_below_end};

/// A row whose basic column is outside its ends.
#[derive(Clone, Copy, Debug)]
pub struct LeavingRow {
    pub row: u32,
    /// Its basic column.
    pub column: u32,
    /// The end that the column is to leave to.
    pub to: At,
}

/// The end that the row's basic column is outside of.
fn outside<B: Board>(board: &B, row: u32) -> Result<Option<At>, Wide>
    requires { row < (B.state board.now).frame.rows }
    ensures side { IfOk result (λ to. MatchOption to (IsWithinEnds (B.state board.now) row) (IsOutsideAt (B.state board.now) row)) }
    ensures wide { IfErr result (IsRefusedAt (B.state board.now)) }
    ensures large { IfErr result (λ _. ¬ Fits (value_of (B.state board.now) (basic_of (B.state board.now) row))) }
{
    let column = board.basic(row);
    let (low, high) = board.ends(column);
    let value = board.value(column)?;
    if is_below_end(low, &value) {
        return Ok(Some(At::Lower));
    }
    if is_above_end(high, &value) {
        return Ok(Some(At::Upper));
    }
    Ok(None)
}

/// What leaves of the rows up to this one, where `first` leaves of those before it.
fn with_row<B: Board>(
    board: &B,
    first: Option<LeavingRow>,
    row: u32,
) -> Result<Option<LeavingRow>, Wide>
    requires row { row < (B.state board.now).frame.rows }
    requires first { LeavesBelow (B.state board.now) row first }
    ensures first { IfOk result (LeavesBelow (B.state board.now) (row + 1)) }
    ensures wide { IfErr result (IsRefusedLeaving (B.state board.now)) }
{
    let column = board.basic(row);
    if comes_before(first, column) {
        return Ok(first);
    }
    match outside(board, row)? {
        Some(to) => Ok(Some(LeavingRow { row, column, to })),
        None => Ok(first),
    }
}

/// A column of less index, or this one, is there already.
fn comes_before(first: Option<LeavingRow>, column: u32) -> bool
    ensures { IsTrue result ↔ IsThereBefore first column }
{
    match first {
        Some(leaving) => leaving.column <= column,
        None => false,
    }
}

/// Of the basic columns outside their ends, the one of least index.
pub fn leaving<B: Board>(board: &B) -> Result<Option<LeavingRow>, Wide>
    ensures first { IfOk result (IsLeaving (B.state board.now)) }
    ensures wide { IfErr result (IsRefusedLeaving (B.state board.now)) }
{
    let mut first = None;
    for row in 0..board.rows() {
        first = with_row(board, first, row)?;
    }
    Ok(first)
}
