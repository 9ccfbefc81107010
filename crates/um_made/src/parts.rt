//! What a maker keeps of the rows, columns and sets that were told to it.

use um_model::SetKind;
use um_num::{Decimal, List};
use um_statements::{Ends, EntryPart, MemberPart, RowKind};

/// A row but for its name.
#[derive(Clone, Copy, PartialEq, Eq, Debug)]
pub struct RowPart {
    pub kind: RowKind,
    /// Its right-hand side.
    pub side: Option<Decimal>,
    pub range: Option<Decimal>,
}

/// A column but for its name.
#[derive(Debug, Drop)]
pub struct ColumnPart {
    pub ends: Ends,
    /// In the order of the text.
    pub entries: List<EntryPart>,
}

/// A set but for its name.
#[derive(Debug, Drop)]
pub struct SetPart {
    pub kind: SetKind,
    /// The place of its reference row.
    pub reference: Option<u32>,
    /// In the order of the text.
    pub members: List<MemberPart>,
}
