//! Why a board is not read.

ghost use Rattle.std.specs.Prelude.{◌≡◌};

use thiserror::Error;
use um_lp::Wide;
use um_num::Memory;

/// Why numbers of a board are not read.
#[derive(Clone, Copy, PartialEq, Eq, Debug, Error)]
pub enum Large {
    /// One of them is too large for a tree.
    #[error("a number is too large for a tree")]
    Large,
    /// An operation is out of range.
    #[error("{0}")]
    Wide(Wide),
    #[error("no memory")]
    Memory,
}

impl From<Memory> for Large {
    ghost use Rattle.um_relax.specs.declared.large.Large.TheVariants as large;

    ghost from_gives = { λ _ given. given ≡ large.Memory };

    fn from(_memory: Memory) -> Large {
        Large::Memory
    }
}

impl From<Wide> for Large {
    ghost use Rattle.um_relax.specs.declared.large.Large.TheVariants as large;

    ghost from_gives = { λ wide given. given ≡ large.Wide wide };

    fn from(wide: Wide) -> Large {
        Large::Wide(wide)
    }
}
