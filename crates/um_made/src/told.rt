//! What was said of a deck, in lists that are read place by place.

use crate::{ColumnPart, RowPart, SetPart};
use um_num::{List, Name};
use um_statements::ArcPart;

/// What was said of a deck, without a fault of a single statement.
#[derive(Drop)]
pub struct Told {
    /// May be empty.
    pub name: Name,
    pub maximise: bool,
    pub rows: Vec<(Name, RowPart)>,
    pub columns: Vec<(Name, ColumnPart)>,
    pub sets: Vec<(Name, SetPart)>,
    /// Zero arcs among them.
    pub arcs: List<ArcPart>,
}
