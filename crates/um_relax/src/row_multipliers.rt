//! The rows' multipliers of a board that has ended.

ghost use Rattle.std.specs.Prelude.{◌≡◌, ◌^◌, ◌+◌, ◌<◌, [], length, IfOk, IfErr};
ghost use Rattle.um_lp.specs.Relaxations.{frame_of};
ghost use Rattle.um_lp.specs.States.{width};
ghost use Rattle.um_multipliers.specs.PlainMultipliers.{plain_multipliers};
ghost use Rattle.um_duality.specs.Readings.{multipliers, slack_costs};
ghost use Rattle.um_relax.specs.Limits.{AreSmall};
ghost use Rattle.um_multipliers.specs.Sizes.{AreBelow};
ghost use Rattle.um_relax.specs.Refusals.{IsRefusedReading, IsFailure};

use crate::large::Large;
use crate::whole::{least_whole, normal};
use std::alloc::Global;
use um_lp::{Board, Multipliers, Relaxation};
use um_model::limits::MULTIPLIER_SIZE;
use um_num::{Frac, List};

/// The slack of the first row, which is also how many columns stand before the slacks.
pub(crate) fn first_slack<B: Board>(relaxation: &Relaxation, board: &B) -> u32
    requires frame { (B.state board.now).frame ≡ frame_of relaxation.now }
    requires straight { relaxation.now.bends.items ≡ [] }
    ensures first { result ≡ length (B.state board.now).frame.columns }
    ensures rows { relaxation.now.rows ≡ (B.state board.now).frame.rows }
    ensures columns { width (B.state board.now).frame ≡ result + relaxation.now.rows }
    ensures sizes { width (B.state board.now).frame < 2 ^ 32 }
{
    board.columns() - relaxation.rows
}

/// The reduced costs of the slacks, by row.
fn slack_costs<B: Board>(
    alloc: Global,
    relaxation: &Relaxation,
    board: &B,
) -> Result<List<Frac>, Large>
    requires frame { (B.state board.now).frame ≡ frame_of relaxation.now }
    requires straight { relaxation.now.bends.items ≡ [] }
    ensures value { IfOk result (λ costs. costs.items ≡ slack_costs (B.state board.now)) }
    ensures short { IfOk result (λ costs. length costs.items < 2 ^ 32) }
    ensures refused { IfErr result (IsFailure (B.state board.now)) }
{
    let first = first_slack(relaxation, board);
    let mut costs = List::new(alloc);
    for row in 0..relaxation.rows {
        let cost = board.cost(first + row)?;
        costs.push(cost)?;
    }
    Ok(costs)
}

/// The reduced costs of the slacks as least whole multiples, below 2^40 in size: the multipliers of
/// the rows, over that of the objective.
pub fn multipliers<B: Board>(
    alloc: Global,
    relaxation: &Relaxation,
    board: &B,
) -> Result<Multipliers, Large>
    requires frame { (B.state board.now).frame ≡ frame_of relaxation.now }
    requires straight { relaxation.now.bends.items ≡ [] }
    ensures value { IfOk result (λ y. plain_multipliers y ≡ multipliers (B.state board.now)) }
    ensures small { IfOk result (λ y. AreBelow MULTIPLIER_SIZE (plain_multipliers y)) }
    ensures refused { IfErr result (IsRefusedReading (B.state board.now) (¬ AreSmall MULTIPLIER_SIZE (slack_costs (B.state board.now)))) }
{
    let costs = slack_costs(alloc, relaxation, board)?;
    match least_whole(alloc, costs.as_slice(), MULTIPLIER_SIZE as u64)? {
        Some(whole) => Ok(Multipliers {
            y0: whole.den,
            rows: normal(alloc, whole.parts.as_slice())?,
        }),
        None => Err(Large::Large),
    }
}
