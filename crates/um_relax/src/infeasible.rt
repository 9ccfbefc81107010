//! The multipliers of a board that has ended without a point.

ghost use Rattle.std.specs.Prelude.{◌≡◌, ◌≢◌, ◌^◌, ◌<◌, pos, [], All, map, length, IfOk, IfErr};
ghost use Rattle.std.specs.Option.{MatchOption};
ghost use Rattle.um_laws.specs.Rational.{Rational, whole, mul, inverse};
ghost use Rattle.um_num.specs.Sizes.{IsSmall};
ghost use Rattle.um_lp.specs.DualSteps.{IsNext, NoPoint, Leaves};
ghost use Rattle.um_lp.specs.Refusals.{IsRefusedAt};
ghost use Rattle.um_lp.specs.Relaxations.{frame_of};
ghost use Rattle.um_lp.specs.States.{State};
ghost use Rattle.um_lp.specs.WideStates.{numbers_of, AreNarrow};
ghost use Rattle.um_multipliers.specs.PlainMultipliers.{plain_multipliers};
ghost use Rattle.um_duality.specs.Readings.{AreFarkas};
ghost use Rattle.um_relax.specs.Limits.{HasLargeFarkas};
ghost use Rattle.um_multipliers.specs.Sizes.{AreBelow};
ghost use Rattle.um_relax.specs.Parts.{IsSide, IsSigned, IsDivisor, AreSlackEntries};
ghost use Rattle.um_relax.specs.Refusals.{IsRefusedReading, IsFailure};

use crate::large::Large;
use crate::row_multipliers::first_slack;
use crate::whole::{least_whole, normal};
use std::alloc::Global;
use um_lp::{At, Board, Multipliers, Relaxation, Wide, harms, is_below_end};
use um_model::limits::MULTIPLIER_SIZE;
use um_num::{Frac, List};

/// The multipliers of Farkas, where no column may enter for this row: its entries at the slacks, as
/// whole numbers without a common divisor, with their signs turned where the row's basic column is
/// below its low end. All are below 2^40 in size; that of the objective is 0.
pub fn farkas<B: Board>(
    alloc: Global,
    relaxation: &Relaxation,
    board: &B,
    row: u32,
) -> Result<Multipliers, Large>
    requires frame { (B.state board.now).frame ≡ frame_of relaxation.now }
    requires straight { relaxation.now.bends.items ≡ [] }
    requires no_point { IsNext (B.state board.now) (NoPoint row) }
    ensures value { IfOk result (λ y. AreFarkas (B.state board.now) row (plain_multipliers y)) }
    ensures small { IfOk result (λ y. AreBelow MULTIPLIER_SIZE (plain_multipliers y)) }
    ensures refused { IfErr result (IsRefusedReading (B.state board.now) (HasLargeFarkas MULTIPLIER_SIZE (B.state board.now) row)) }
{
    let to = leaves_to(board, row)?;
    let entries = slack_entries(alloc, relaxation, board, row)?;
    let Some(divisor) = divisor(to, entries.as_slice()) else {
        unreachable!()
    };
    let ratios = ratios(alloc, entries.as_slice(), &divisor)?;
    match least_whole(alloc, ratios.as_slice(), MULTIPLIER_SIZE as u64)? {
        Some(whole) => Ok(Multipliers {
            y0: 0,
            rows: normal(alloc, whole.parts.as_slice())?,
        }),
        None => Err(Large::Large),
    }
}

/// The end that the row's basic column is outside of.
fn leaves_to<B: Board>(board: &B, row: u32) -> Result<At, Wide>
    requires { IsNext (B.state board.now) (NoPoint row) }
    ensures to { IfOk result (Leaves (B.state board.now) row) }
    ensures side { IfOk result IsSide }
    ensures wide { IfErr result (IsRefusedAt (B.state board.now)) }
{
    let column = board.basic(row);
    let (low, _high) = board.ends(column);
    let value = board.value(column)?;
    if is_below_end(low, &value) {
        Ok(At::Lower)
    } else {
        Ok(At::Upper)
    }
}

/// The row's entries at the slacks, by row.
fn slack_entries<B: Board>(
    alloc: Global,
    relaxation: &Relaxation,
    board: &B,
    row: u32,
) -> Result<List<Frac>, Large>
    requires frame { (B.state board.now).frame ≡ frame_of relaxation.now }
    requires straight { relaxation.now.bends.items ≡ [] }
    requires row { row < (B.state board.now).frame.rows }
    ensures value { IfOk result (λ entries. AreSlackEntries (B.state board.now) row (B.state board.now).frame.rows entries.items) }
    ensures short { IfOk result (λ entries. length entries.items < 2 ^ 32) }
    ensures refused { IfErr result (IsFailure (B.state board.now)) }
{
    let first = first_slack(relaxation, board);
    let mut entries = List::new(alloc);
    for other in 0..relaxation.rows {
        let entry = board.entry(row, first + other)?;
        entries.push(entry)?;
    }
    Ok(entries)
}

/// The first entry that is not 0, with the sign that makes its quotients those of the row's basic
/// column on this side: below 0 at the low end, and above it at the high end.
fn divisor(to: At, entries: &[Frac]) -> Option<Frac>
    requires { IsSide to }
    ensures { MatchOption result (All (λ (x : Rational). x ≡ whole (pos 0)) entries.now) (IsDivisor to entries.now) }
{
    for entry in entries {
        if !entry.is_zero() {
            return Some(signed(to, entry));
        }
    }
    None
}

/// The number below 0 for the low end, and above it for the high end.
fn signed(to: At, entry: &Frac) -> Frac
    requires side { IsSide to }
    requires not_zero { entry.now ≢ whole (pos 0) }
    ensures { IsSigned to entry.now result }
{
    if harms(to, entry.num().cmp(&0)) {
        *entry
    } else {
        entry.neg()
    }
}

/// The entries over this number.
fn ratios(alloc: Global, entries: &[Frac], divisor: &Frac) -> Result<List<Frac>, Large>
    requires { divisor.now ≢ whole (pos 0) }
    ensures value { IfOk result (λ ratios. ratios.items ≡ map (λ (x : Rational). mul x (inverse divisor.now)) entries.now) }
    ensures refused { (s : State) → (AreNarrow (numbers_of s) → All IsSmall entries.now) → (AreNarrow (numbers_of s) → IsSmall divisor.now) → IfErr result (IsFailure s) }
{
    let mut ratios = List::new(alloc);
    for entry in entries {
        let ratio = entry.div(divisor)?;
        ratios.push(ratio)?;
    }
    Ok(ratios)
}
