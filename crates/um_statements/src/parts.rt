//! Kinds of rows and bounds, and the parts of what was said of a deck.

use um_num::Decimal;

/// The kind of a row as a deck's text has it.
#[derive(Clone, Copy, PartialEq, Eq, Debug)]
pub enum RowKind {
    N,
    L,
    G,
    E,
}

/// The kind of a bound.
#[derive(Clone, Copy, PartialEq, Eq, Debug)]
pub enum BoundKind {
    Up,
    Lo,
    Fx,
    Fr,
    Mi,
    Pl,
    Bv,
    Li,
    Ui,
    Sc,
}

/// An end of a column.
#[derive(Clone, Copy, PartialEq, Eq, Debug)]
pub enum End {
    Infinite,
    /// In thousandths.
    Finite(i64),
}

/// What a column has in a row. Rows of all kinds are counted together, from 0.
#[derive(Clone, Copy, PartialEq, Eq, Debug)]
pub struct EntryPart {
    pub row: u32,
    pub value: Decimal,
}

/// What the bounds on a column have set so far.
#[derive(Clone, Copy, PartialEq, Eq, Debug)]
pub struct Ends {
    pub integer: bool,
    pub semi: bool,
    /// That of the last bound that set the low end.
    pub low: Option<End>,
    /// That of the last bound that set the high end.
    pub high: Option<End>,
    /// Whether an UP or UI was below 0.
    pub falls: bool,
    /// That of the last LO.
    pub threshold: Option<End>,
}

/// A member of a set. Columns are counted from 0.
#[derive(Clone, Copy, PartialEq, Eq, Debug)]
pub struct MemberPart {
    pub column: u32,
    /// In millionths; `None` where the set's reference row has it.
    pub weight: Option<i64>,
}

/// An arc.
#[derive(Clone, Copy, PartialEq, Eq, Debug)]
pub struct ArcPart {
    pub row: u32,
    pub column: u32,
    pub value: Decimal,
}
