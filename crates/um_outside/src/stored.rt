//! The files that a desk in memory keeps.

ghost use Rattle.std.specs.Prelude.{◌≡◌, ◌+◌, ◌≤◌, length, unwrap_or};
ghost use Rattle.std.specs.List.{position};

use um_num::{FileName, List};

/// A file, or the room for one that may be created under this name.
#[derive(Drop)]
pub struct Stored {
    pub name: FileName,
    /// Whether there is such a file; where there is none, the bytes are of no meaning.
    pub exists: bool,
    pub bytes: List<u8>,
    /// How many bytes a file created under this name may hold; `None` where it may not be created.
    pub room: Option<usize>,
    ghost room_kept: { unwrap_or room 0 ≤ length bytes.items + bytes.spare },
}
