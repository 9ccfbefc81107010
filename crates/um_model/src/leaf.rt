//! Leaf values.

/// What multipliers say of a box.
#[derive(Clone, Copy, PartialEq, Eq, Debug)]
pub enum Leaf {
    /// No feasible point of the box goes below this, in thousandths of the scaled objective times
    /// y0.
    Value(i128),
    /// This column has no least value in the box, and no row lacks one.
    EndlessColumn(u32),
    /// This row has no least value.
    EndlessRow(u32),
}
