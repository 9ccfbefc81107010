//! What is put back when a child's box is left.

/// What an `enter` replaced. It belongs to the box that this `enter` made.
#[derive(Debug, Drop)]
pub struct Undo {
    pub(crate) replaced: Replaced,
}

/// A part of a box as it was.
#[derive(Debug, Drop)]
pub(crate) enum Replaced {
    OldEnds {
        column: u32,
        low: Option<i64>,
        high: Option<i64>,
    },
    OldFirst {
        set: u32,
        position: usize,
    },
    OldLast {
        set: u32,
        position: usize,
    },
}
