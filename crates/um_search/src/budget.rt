//! What a search may spend.

/// The most nodes and pivots of a search, and its tolerance.
#[derive(Clone, Copy, PartialEq, Eq, Debug)]
pub struct Budget {
    /// How many nodes may be solved.
    pub nodes: u32,
    /// How many pivots may be made in all.
    pub pivots: u64,
    /// In thousandths; 0 for a deck without arcs.
    pub tolerance: i64,
}
