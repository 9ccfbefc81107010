//! The arcs' sizes, on which the least tolerance of a deck rests.

ghost use Rattle.std.specs.Prelude.{◌≡◌, ◌≤◌, ◌-◌, ◌*◌, ◌^◌, ◌+ℤ◌, pos, unsigned_abs, length, All};
ghost use Rattle.um_laws.specs.Sums.{sum_of};
ghost use Rattle.um_model.specs.Rounding.{ceil_div};
ghost use Rattle.um_model.specs.WellFormed.{IsWithin};
ghost use Rattle.um_model.specs.declared.deck.Arc.{Arc};
ghost use Rattle.um_model.specs.declared.limits.TheConstants.{MOST_COLUMNS, MOST_SCALE, MOST_ARC};

use crate::Arc;
use um_num::{floor_div, power_of_ten};

/// The size of an arc's value in natural size, in millionths. The scale is that of its row.
fn arc_size(arc: &Arc, scale: u8) -> i128
    requires scale { scale ≤ MOST_SCALE }
    requires value { IsWithin MOST_ARC arc.now.value }
    ensures value { result ≡ pos (unsigned_abs arc.now.value * 10 ^ (6 - scale)) }
    ensures size { IsWithin (2 ^ 44) result }
{
    i128::from(arc.value.unsigned_abs()) * power_of_ten(6 - scale)
}

/// The sum of the sizes of arcs of one row, in millionths. They are no more than a deck has columns.
pub fn size_sum(arcs: &[Arc], scale: u8) -> i128
    requires scale { scale ≤ MOST_SCALE }
    requires few { length arcs.now ≤ MOST_COLUMNS }
    requires values { All (λ (a : Arc). IsWithin MOST_ARC a.value) arcs.now }
    ensures value { result ≡ sum_of (λ (a : Arc). pos (unsigned_abs a.value * 10 ^ (6 - scale))) arcs.now }
    ensures size { IsWithin (2 ^ 56) result }
{
    let mut sum = 0;
    for arc in arcs {
        sum += arc_size(arc, scale);
    }
    sum
}

/// In thousandths, 1 and this many millionths over 1000, rounded up.
pub fn one_above(sum: i128) -> i64
    requires { IsWithin (2 ^ 56) sum }
    ensures { result ≡ pos 1 +ℤ ceil_div sum (10 ^ 9) }
{
    (1 - floor_div(-sum, 1_000_000_000)) as i64
}
