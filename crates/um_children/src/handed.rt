//! Multipliers that children are handed.

ghost use Rattle.std.specs.Prelude.{◌≡◌, IfOk};
ghost use Rattle.um_multipliers.specs.PlainMultipliers.{plain_multipliers};
ghost use Rattle.um_children.specs.NewChildren.{one_and_none};

use std::alloc::Global;
use um_model::Multipliers;
use um_num::{List, Memory};

/// The same multipliers once more. The error is want of memory.
pub fn copy_of(alloc: Global, y: &Multipliers) -> Result<Multipliers, Memory>
    ensures { IfOk result (λ copy. plain_multipliers copy ≡ plain_multipliers y.now) }
{
    Ok(Multipliers {
        y0: y.y0,
        rows: List::from_slice(alloc, y.rows.as_slice())?,
    })
}

/// The multiplier 1 of the objective, and none of the rows. Takes no memory.
pub fn one_and_none(alloc: Global) -> Multipliers
    ensures { plain_multipliers result ≡ one_and_none }
{
    Multipliers {
        y0: 1,
        rows: List::new(alloc),
    }
}
