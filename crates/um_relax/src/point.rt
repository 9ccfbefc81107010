//! The point of a board that has ended.

ghost use Rattle.std.specs.Prelude.{◌≡◌, ◌<◌, [], IfOk, IfErr};
ghost use Rattle.um_lp.specs.Relaxations.{frame_of};
ghost use Rattle.um_model.specs.Values.{plain_point};
ghost use Rattle.um_model.specs.Accepted.{IsSmallPoint};
ghost use Rattle.um_lp.specs.Refusals.{IsRefusedAt};
ghost use Rattle.um_lp.specs.States.{width, value_of};
ghost use Rattle.um_duality.specs.Readings.{vertex, natural, natural_values};
ghost use Rattle.um_relax.specs.Limits.{AreSmall};
ghost use Rattle.um_relax.specs.Refusals.{IsRefusedReading, IsFailure};

use crate::large::Large;
use crate::row_multipliers::first_slack;
use crate::whole::least_whole;
use std::alloc::Global;
use um_lp::{Board, Relaxation, Wide};
use um_model::Point;
use um_model::limits::POINT_SIZE;
use um_num::{Frac, List};

/// The value of a column in natural size.
fn natural_value<B: Board>(board: &B, column: u32) -> Result<Frac, Wide>
    requires { column < width (B.state board.now).frame }
    ensures value { IfOk result (λ x. x ≡ natural (value_of (B.state board.now) column)) }
    ensures wide { IfErr result (IsRefusedAt (B.state board.now)) }
{
    let value = board.value(column)?;
    value.div(&Frac::new(1000, 1))
}

/// The values of the columns before the slacks in natural size.
fn natural_values<B: Board>(
    alloc: Global,
    relaxation: &Relaxation,
    board: &B,
) -> Result<List<Frac>, Large>
    requires frame { (B.state board.now).frame ≡ frame_of relaxation.now }
    requires straight { relaxation.now.bends.items ≡ [] }
    ensures value { IfOk result (λ values. values.items ≡ natural_values (B.state board.now)) }
    ensures refused { IfErr result (IsFailure (B.state board.now)) }
{
    let mut values = List::new(alloc);
    for column in 0..first_slack(relaxation, board) {
        let value = natural_value(board, column)?;
        values.push(value)?;
    }
    Ok(values)
}

/// The values of the deck's columns in natural size, over their least common denominator; all numbers
/// are below 2^36 in size.
pub fn vertex<B: Board>(alloc: Global, relaxation: &Relaxation, board: &B) -> Result<Point, Large>
    requires frame { (B.state board.now).frame ≡ frame_of relaxation.now }
    requires straight { relaxation.now.bends.items ≡ [] }
    ensures value { IfOk result (λ point. plain_point point ≡ vertex (B.state board.now)) }
    ensures small { IfOk result (λ point. IsSmallPoint (plain_point point)) }
    ensures refused { IfErr result (IsRefusedReading (B.state board.now) (¬ AreSmall POINT_SIZE (natural_values (B.state board.now)))) }
{
    let values = natural_values(alloc, relaxation, board)?;
    match least_whole(alloc, values.as_slice(), POINT_SIZE as u64)? {
        Some(whole) => Ok(Point {
            den: whole.den,
            parts: whole.parts,
        }),
        None => Err(Large::Large),
    }
}
