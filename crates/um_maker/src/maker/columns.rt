//! Columns and their entries, as a maker is told them.

ghost use Rattle.std.specs.Prelude.{◌≡◌, ◌<◌, length, false, OnOk, OnErr, IfSome, Some};
ghost use Rattle.um_statements.specs.CallRules.{holds_row};
ghost use Rattle.um_model.specs.declared.limits.TheConstants.{MOST_ROW_LINES};

use crate::Fault;
use crate::maker::DeckMaker;
use um_made::ColumnPart;
use um_model::limits::MOST_COLUMNS;
use um_num::{Decimal, List, Memory};
use um_statements::{Ends, EntryPart};

impl DeckMaker {
    ghost use Rattle.um_statements.specs.CallRules.{has_column, is_full_of_columns, last_has, holds_row, with_statement};
    ghost use Rattle.um_statements.specs.Tells.{Tells};
    ghost use Rattle.um_statements.specs.Said.{ColumnSaid, row_place, column_place};
    ghost use Rattle.um_statements.specs.Statements.{Column, EntryTold};
    ghost use Rattle.um_statements.specs.WellSaid.{IsNumber};

    #[tactic(auto, using(crate::proofs::ColumnSteps::place_of_column))]
    fn has_column(&self, name: &[u8]) -> bool
        ensures { result ≡ has_column self.now name.now }
    {
        self.columns.place(name).is_some()
    }

    #[tactic(auto, using(crate::proofs::ColumnSteps::place_of_column))]
    pub(super) fn column_place(&self, column: &[u8]) -> Option<usize>
        ensures place { result ≡ column_place self.now.columns column.now }
        ensures within { IfSome result (λ place. place < MOST_COLUMNS) }
        ensures there { IfSome result (λ place. place < length self.now.columns) }
    {
        self.columns.place(column)
    }

    fn is_full_of_columns(&self) -> bool
        ensures { result ≡ is_full_of_columns self.now }
    {
        self.columns.len() >= MOST_COLUMNS
    }

    /// Begins a column, integer or not. Entries go to it until the next begins. Faults: `TwiceColumn`; `TooMany`
    /// behind 4,096 columns; `Memory`.
    #[tactic(auto, using(crate::proofs::ColumnSteps::twice_column, crate::proofs::ColumnSteps::many_columns, crate::proofs::ColumnSteps::column_allowed))]
    pub fn column(&mut self, name: &[u8], integer: bool) -> Result<(), Fault>
        ensures { Tells (Column name.now integer) self.old result self.new }
    {
        if self.has_column(name) {
            return Err(Fault::TwiceColumn);
        }
        if self.is_full_of_columns() {
            return Err(Fault::TooMany);
        }
        self.push_column(name, integer)?;
        Ok(())
    }

    fn push_column(&mut self, name: &[u8], integer: bool) -> Result<(), Memory>
        requires new { has_column self.old name.now ≡ false }
        requires room { is_full_of_columns self.old ≡ false }
        ensures ok { OnOk result (self.new ≡ with_statement (Column name.now integer) self.old) }
        ensures err { OnErr result (self.new ≡ self.old) }
    {
        let ends = Ends {
            integer,
            semi: false,
            low: None,
            high: None,
            falls: false,
            threshold: None,
        };
        let part = ColumnPart {
            ends,
            entries: List::new(self.alloc),
        };
        self.columns.push(name, part)?;
        Ok(())
    }

    /// Says what the last column has in a row; 0 is told and not kept by the deck. Faults: `UnknownRow`;
    /// `TwiceEntry`, also behind an entry of 0; `Memory`.
    #[tactic(auto, using(crate::proofs::EntrySteps::unknown_row))]
    pub fn entry(&mut self, row: &[u8], value: &Decimal) -> Result<(), Fault>
        requires some { 0 < length self.old.columns }
        requires number { IsNumber value.now }
        ensures { Tells (EntryTold row.now value.now) self.old result self.new }
    {
        match self.row_place(row) {
            Some(place) => {
                if self.has_entry(place) {
                    return Err(Fault::TwiceEntry);
                }
                self.push_entry(row, place, value)?;
                Ok(())
            }
            None => Err(Fault::UnknownRow),
        }
    }

    fn has_entry(&self, place: usize) -> bool
        ensures { result ≡ last_has (λ (c : ColumnSaid). holds_row place c.entries) self.now.columns }
    {
        match self.columns.last() {
            Some(column) => holds_row(place, column.entries.as_slice()),
            None => false,
        }
    }

    /// `row` has this place.
    fn push_entry(&mut self, row: &[u8], place: usize, value: &Decimal) -> Result<(), Memory>
        requires some { 0 < length self.old.columns }
        requires place { row_place self.old.rows row.now ≡ Some place }
        requires within { place < MOST_ROW_LINES }
        requires number { IsNumber value.now }
        requires new { last_has (λ (c : ColumnSaid). holds_row place c.entries) self.old.columns ≡ false }
        ensures ok { OnOk result (self.new ≡ with_statement (EntryTold row.now value.now) self.old) }
        ensures err { OnErr result (self.new ≡ self.old) }
    {
        let part = EntryPart {
            row: place as u32,
            value: *value,
        };
        let last = self.columns.len() - 1;
        self.columns.at_mut(last).entries.push(part)
    }
}

fn holds_row(place: usize, entries: &[EntryPart]) -> bool
    ensures { result ≡ holds_row place entries.now }
{
    entries.iter().any(|entry| entry.row as usize == place)
}
