//! The maker of decks: statement by statement, each fault exactly where a rule is broken.

ghost use Rattle.std.specs.Prelude.{◌≡◌, ◌<◌, length, not, OnOk, OnErr, IfSome, Some, false, is_some, option_map, slice_get};
ghost use Rattle.um_statements.specs.CallRules.{is_n};

mod arcs;
mod bounds;
mod columns;
mod finish;
mod sets;

use crate::named::Named;
use crate::{Fault, RowKind};
use std::alloc::Global;
use std::marker::Model;
use um_made::{ColumnPart, RowPart, SetPart};
use um_model::limits::{MOST_ROW_LINES, MOST_ROWS};
use um_num::{Decimal, List, Memory, Name};
use um_statements::ArcPart;

/// What was told of a deck so far. Contracts see it as that.
///
/// A call that is refused leaves the maker as it was.
#[derive(Drop)]
pub struct DeckMaker {
    alloc: Global,
    /// `None` until it is told, and then the deck's name is empty.
    name: Option<Name>,
    maximise: bool,
    rows: Named<RowPart>,
    columns: Named<ColumnPart>,
    sets: Named<SetPart>,
    /// Zero arcs among them.
    arcs: List<ArcPart>,
    /// The place of the first N row, which is the objective.
    objective: Option<usize>,
    /// How many rows are sided, that is not N.
    sided_rows: usize,
    /// How many columns have an arc that is not 0.
    arc_columns: usize,
}

impl Model for DeckMaker {
    ghost use Rattle.um_statements.specs.Said.{Said};
    ghost use Rattle.um_made.specs.Views.{said_of};
    ghost use Rattle.um_maker.specs.Makers.{IsMaker};

    ghost Value = { Said };

    ghost view = { λ m. said_of m.name m.maximise m.rows m.columns m.sets m.arcs.items };

    ghost invariant = { λ m. IsMaker (said_of m.name m.maximise m.rows m.columns m.sets m.arcs.items) m.objective m.sided_rows m.arc_columns };
}

impl DeckMaker {
    ghost use Rattle.um_statements.specs.CallRules.{has_row, is_full_of_rows, with_statement};
    ghost use Rattle.um_statements.specs.Tells.{Tells};
    ghost use Rattle.um_statements.specs.Said.{RowSaid, row_place, nothing_said};
    ghost use Rattle.um_statements.specs.Statements.{Title, Sense, RowTold, Side, Range};
    ghost use Rattle.um_statements.specs.WellSaid.{IsNumber};

    /// A maker that was told nothing: its deck minimises, and has no name. Takes no memory.
    pub fn new(alloc: Global) -> DeckMaker
        ensures { result ≡ nothing_said }
    {
        DeckMaker {
            alloc,
            name: None,
            maximise: false,
            rows: Named::new(alloc),
            columns: Named::new(alloc),
            sets: Named::new(alloc),
            arcs: List::new(alloc),
            objective: None,
            sided_rows: 0,
            arc_columns: 0,
        }
    }

    /// Names the deck. The last name counts. Refused for want of memory alone.
    pub fn name(&mut self, name: &[u8]) -> Result<(), Fault>
        ensures { Tells (Title name.now) self.old result self.new }
    {
        let name = Name::from_bytes(self.alloc, name)?;
        self.name = Some(name);
        Ok(())
    }

    /// Says whether the deck maximises. The last call counts.
    pub fn sense(&mut self, maximise: bool)
        ensures { self.new ≡ with_statement (Sense maximise) self.old }
    {
        self.maximise = maximise;
    }

    #[tactic(auto, using(crate::proofs::RowSteps::place_of_row))]
    fn has_row(&self, name: &[u8]) -> bool
        ensures { result ≡ has_row self.now name.now }
    {
        self.rows.place(name).is_some()
    }

    fn is_full_of_rows(&self, kind: RowKind) -> bool
        ensures { result ≡ is_full_of_rows self.now kind }
    {
        self.rows.len() >= MOST_ROW_LINES || is_sided(kind) && self.sided_rows >= MOST_ROWS
    }

    /// Adds a row. Faults: `TwiceRow`; `TooMany` behind 1,024 rows, or 512 that are not N; `Memory`.
    #[tactic(auto, using(crate::proofs::RowSteps::twice_row, crate::proofs::RowSteps::many_rows, crate::proofs::RowSteps::row_allowed))]
    pub fn row(&mut self, kind: RowKind, name: &[u8]) -> Result<(), Fault>
        ensures { Tells (RowTold kind name.now) self.old result self.new }
    {
        if self.has_row(name) {
            return Err(Fault::TwiceRow);
        }
        if self.is_full_of_rows(kind) {
            return Err(Fault::TooMany);
        }
        self.push_row(kind, name)?;
        Ok(())
    }

    fn push_row(&mut self, kind: RowKind, name: &[u8]) -> Result<(), Memory>
        requires new { has_row self.old name.now ≡ false }
        requires room { is_full_of_rows self.old kind ≡ false }
        ensures ok { OnOk result (self.new ≡ with_statement (RowTold kind name.now) self.old) }
        ensures err { OnErr result (self.new ≡ self.old) }
    {
        let part = RowPart {
            kind,
            side: None,
            range: None,
        };
        let place = self.rows.len();
        self.rows.push(name, part)?;
        if is_sided(kind) {
            self.sided_rows += 1;
        } else {
            self.objective = self.objective.or(Some(place));
        }
        Ok(())
    }

    #[tactic(auto, using(crate::proofs::RowSteps::place_of_row))]
    fn row_place(&self, row: &[u8]) -> Option<usize>
        ensures place { result ≡ row_place self.now.rows row.now }
        ensures within { IfSome result (λ place. place < MOST_ROW_LINES) }
        ensures there { IfSome result (λ place. place < length self.now.rows) }
    {
        self.rows.place(row)
    }

    /// Gives a row its right-hand side, or the objective the negative of its constant. Faults: `UnknownRow`;
    /// `TwiceEntry`, also behind a side of 0; `Memory`.
    #[tactic(auto, using(crate::proofs::SideSteps::unknown_row))]
    pub fn rhs(&mut self, row: &[u8], value: &Decimal) -> Result<(), Fault>
        requires number { IsNumber value.now }
        ensures { Tells (Side row.now value.now) self.old result self.new }
    {
        match self.row_place(row) {
            Some(place) => {
                if self.has_side(place) {
                    return Err(Fault::TwiceEntry);
                }
                self.put_side(row, place, value);
                Ok(())
            }
            None => Err(Fault::UnknownRow),
        }
    }

    fn has_side(&self, place: usize) -> bool
        requires { place < length self.now.rows }
        ensures { Some result ≡ option_map (λ (r : RowSaid). is_some r.side) (slice_get self.now.rows place) }
    {
        self.rows.at(place).side.is_some()
    }

    /// `row` has this place.
    fn put_side(&mut self, row: &[u8], place: usize, value: &Decimal)
        requires place { row_place self.old.rows row.now ≡ Some place }
        requires within { place < length self.old.rows }
        requires number { IsNumber value.now }
        requires new { option_map (λ (r : RowSaid). is_some r.side) (slice_get self.old.rows place) ≡ Some false }
        ensures { self.new ≡ with_statement (Side row.now value.now) self.old }
    {
        self.rows.known();
        self.rows.at_mut(place).side = Some(*value);
    }

    /// Gives a row its range. That of an N row takes no part. Faults: `UnknownRow`; `TwiceEntry`, also behind a
    /// range of 0; `Memory`.
    #[tactic(auto, using(crate::proofs::SideSteps::unknown_range_row))]
    pub fn range(&mut self, row: &[u8], value: &Decimal) -> Result<(), Fault>
        requires number { IsNumber value.now }
        ensures { Tells (Range row.now value.now) self.old result self.new }
    {
        match self.row_place(row) {
            Some(place) => {
                if self.has_range(place) {
                    return Err(Fault::TwiceEntry);
                }
                self.put_range(row, place, value);
                Ok(())
            }
            None => Err(Fault::UnknownRow),
        }
    }

    fn has_range(&self, place: usize) -> bool
        requires { place < length self.now.rows }
        ensures { Some result ≡ option_map (λ (r : RowSaid). is_some r.range) (slice_get self.now.rows place) }
    {
        self.rows.at(place).range.is_some()
    }

    /// `row` has this place.
    fn put_range(&mut self, row: &[u8], place: usize, value: &Decimal)
        requires place { row_place self.old.rows row.now ≡ Some place }
        requires within { place < length self.old.rows }
        requires number { IsNumber value.now }
        requires new { option_map (λ (r : RowSaid). is_some r.range) (slice_get self.old.rows place) ≡ Some false }
        ensures { self.new ≡ with_statement (Range row.now value.now) self.old }
    {
        self.rows.known();
        self.rows.at_mut(place).range = Some(*value);
    }
}

fn is_sided(kind: RowKind) -> bool
    ensures { result ≡ not (is_n kind) }
{
    match kind {
        RowKind::N => false,
        _ => true,
    }
}
