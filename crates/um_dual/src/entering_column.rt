//! The column that enters.

ghost use Rattle.std.specs.Prelude.{◌≡◌, ◌<◌, ◌+◌, ◌↔◌, pos, IsTrue, IfOk, IfErr};
ghost use Rattle.std.specs.Ordering.{int_cmp};
ghost use Rattle.um_laws.specs.Rational.{Rational};
ghost use Rattle.um_lp.specs.DualSteps.{CanMove};
ghost use Rattle.um_lp.specs.States.{width};
ghost use Rattle.um_dual.specs.Choices.{IsRatio, IsEarlier, EntersBelow, IsEntering, IsRefusedRatio};

use crate::numbers::size;
use std::cmp::Ordering;
use um_lp::{At, Board, Wide, harms, helps};
use um_num::Frac;

/// A column that may enter, with the size of its reduced cost over its entry.
#[derive(Clone, Copy, Debug)]
pub struct EnteringColumn {
    pub column: u32,
    pub ratio: Frac,
}

/// Whether a column that stands at `at` can move the way in which it helps.
#[tactic(auto, using(um_lp::proofs::EntrySigns::is_not_zero))]
fn can_move(at: At, to: At, sign: Ordering) -> bool
    ensures { (entry : Rational) → sign ≡ int_cmp entry.num (pos 0) → IsTrue result ↔ CanMove at to entry }
{
    match at {
        At::Lower => helps(to, sign),
        At::Upper => harms(to, sign),
        At::Zero => sign.is_ne(),
        At::Basic => false,
    }
}

/// The ratio of a column that may enter.
fn ratio_of<B: Board>(board: &B, row: u32, to: At, column: u32) -> Result<Option<Frac>, Wide>
    requires row { row < (B.state board.now).frame.rows }
    requires column { column < width (B.state board.now).frame }
    ensures ratio { IfOk result (IsRatio (B.state board.now) row to column) }
    ensures wide { IfErr result (IsRefusedRatio (B.state board.now) row to) }
{
    // A column that may not enter is seen without its fractions, which is most of them.
    let sign = board.sign(row, column)?;
    if !can_move(board.at(column), to, sign) {
        return Ok(None);
    }
    let entry = board.entry(row, column)?;
    let cost = board.cost(column)?;
    let quotient = cost.div(&entry)?;
    Ok(Some(size(&quotient)))
}

/// The one of two columns that comes first.
fn earlier(first: Option<EnteringColumn>, other: EnteringColumn) -> EnteringColumn
    ensures { IsEarlier first other result }
{
    match first {
        Some(least) if !other.ratio.is_below(&least.ratio) => least,
        _ => other,
    }
}

/// What enters of the columns up to this one, where `first` enters of those before it.
fn with_column<B: Board>(
    board: &B,
    row: u32,
    to: At,
    first: Option<EnteringColumn>,
    column: u32,
) -> Result<Option<EnteringColumn>, Wide>
    requires row { row < (B.state board.now).frame.rows }
    requires column { column < width (B.state board.now).frame }
    requires first { EntersBelow (B.state board.now) row to column first }
    ensures first { IfOk result (EntersBelow (B.state board.now) row to (column + 1)) }
    ensures wide { IfErr result (IsRefusedRatio (B.state board.now) row to) }
{
    match ratio_of(board, row, to, column)? {
        Some(ratio) => Ok(Some(earlier(first, EnteringColumn { column, ratio }))),
        None => Ok(first),
    }
}

/// Of the columns that may enter, the one of least ratio, and of those the one of least index.
pub fn entering<B: Board>(board: &B, row: u32, to: At) -> Result<Option<EnteringColumn>, Wide>
    requires { row < (B.state board.now).frame.rows }
    ensures first { IfOk result (IsEntering (B.state board.now) row to) }
    ensures wide { IfErr result (IsRefusedRatio (B.state board.now) row to) }
{
    let mut first = None;
    for column in 0..board.columns() {
        first = with_column(board, row, to, first, column)?;
    }
    Ok(first)
}
