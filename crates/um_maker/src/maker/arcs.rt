//! Arcs, as a maker is told them.

ghost use Rattle.std.specs.Prelude.{◌≡◌, ◌<◌, length, nat_eq, None, Some, IfOk, IfErr, OnOk, OnErr};
ghost use Rattle.um_statements.specs.CallRules.{first_fault, is_zero};
ghost use Rattle.um_statements.specs.WellSaid.{IsNumber};
ghost use Rattle.um_maker.specs.Makers.{has_arc, arc_rules, adds_column};
ghost use Rattle.um_model.specs.declared.limits.TheConstants.{MOST_ROW_LINES, MOST_COLUMNS};

use crate::Fault;
use crate::maker::DeckMaker;
use um_model::limits::MOST_ARC_COLUMNS;
use um_num::{Decimal, Memory};
use um_statements::ArcPart;

impl DeckMaker {
    ghost use Rattle.um_statements.specs.declared.fault.Fault.TheVariants.{UnknownRow, UnknownColumn};
    ghost use Rattle.um_statements.specs.CallRules.{has_kept_arc, is_at, objective_place, with_statement};
    ghost use Rattle.um_statements.specs.Tells.{Tells};
    ghost use Rattle.um_statements.specs.Said.{row_place, column_place};
    ghost use Rattle.um_statements.specs.Statements.{ArcTold};

    /// Adds the value times the square of a column to a row; 0 is told and not kept by the deck.
    ///
    /// Faults: `UnknownRow`; `UnknownColumn`; `ArcRow` where the row is not the objective; `TwiceEntry`; `TooMany` where it
    /// would be the first arc other than 0 of a 65th column; `Memory`.
    pub fn arc(&mut self, row: &[u8], column: &[u8], value: &Decimal) -> Result<(), Fault>
        requires number { IsNumber value.now }
        ensures { Tells (ArcTold row.now column.now value.now) self.old result self.new }
    {
        let row_at = self.known_row(row)?;
        let column_at = self.known_column(column)?;
        self.check_arc(row_at, column_at, value)?;
        self.push_arc(row, column, row_at, column_at, value)?;
        Ok(())
    }

    fn known_row(&self, row: &[u8]) -> Result<usize, Fault>
        ensures place { IfOk result (λ place. row_place self.now.rows row.now ≡ Some place) }
        ensures within { IfOk result (λ place. place < MOST_ROW_LINES) }
        ensures unknown { IfErr result (λ fault. (fault ≡ UnknownRow) × (row_place self.now.rows row.now ≡ None)) }
    {
        match self.row_place(row) {
            Some(place) => Ok(place),
            None => Err(Fault::UnknownRow),
        }
    }

    fn known_column(&self, column: &[u8]) -> Result<usize, Fault>
        ensures place { IfOk result (λ place. column_place self.now.columns column.now ≡ Some place) }
        ensures within { IfOk result (λ place. place < MOST_COLUMNS) }
        ensures unknown { IfErr result (λ fault. (fault ≡ UnknownColumn) × (column_place self.now.columns column.now ≡ None)) }
    {
        match self.column_place(column) {
            Some(place) => Ok(place),
            None => Err(Fault::UnknownColumn),
        }
    }

    /// Looks at the rules of an arc in this row and at this column.
    fn check_arc(&self, row: usize, column: usize, value: &Decimal) -> Result<(), Fault>
        ensures kept { OnOk result (first_fault (arc_rules self.now row column value.now) ≡ None) }
        ensures broken { IfErr result (λ fault. first_fault (arc_rules self.now row column value.now) ≡ Some fault) }
    {
        if !self.is_objective(row) {
            return Err(Fault::ArcRow);
        }
        if has_arc(self.arcs.as_slice(), row, column) {
            return Err(Fault::TwiceEntry);
        }
        if self.adds_column(column, value) && self.arc_columns >= MOST_ARC_COLUMNS {
            return Err(Fault::TooMany);
        }
        Ok(())
    }

    fn is_objective(&self, row: usize) -> bool
        ensures { result ≡ is_at (objective_place self.now.rows) row }
    {
        match self.objective {
            Some(objective) => objective == row,
            None => false,
        }
    }

    fn adds_column(&self, column: usize, value: &Decimal) -> bool
        ensures { result ≡ adds_column self.now column value.now }
    {
        !is_zero(value) && !self.has_kept_arc(column)
    }

    fn has_kept_arc(&self, column: usize) -> bool
        ensures { result ≡ has_kept_arc self.now column }
    {
        self.arcs.as_slice().iter().any(|arc| arc.column as usize == column && !is_zero(&arc.value))
    }

    /// `row` and `column` have these places.
    fn push_arc(
        &mut self,
        row: &[u8],
        column: &[u8],
        row_at: usize,
        column_at: usize,
        value: &Decimal,
    ) -> Result<(), Memory>
        requires row { row_place self.old.rows row.now ≡ Some row_at }
        requires column { column_place self.old.columns column.now ≡ Some column_at }
        requires row_within { row_at < MOST_ROW_LINES }
        requires column_within { column_at < MOST_COLUMNS }
        requires number { IsNumber value.now }
        requires allowed { first_fault (arc_rules self.old row_at column_at value.now) ≡ None }
        ensures ok { OnOk result (self.new ≡ with_statement (ArcTold row.now column.now value.now) self.old) }
        ensures err { OnErr result (self.new ≡ self.old) }
    {
        let adds = self.adds_column(column_at, value);
        self.arcs.push(ArcPart {
            row: row_at as u32,
            column: column_at as u32,
            value: *value,
        })?;
        if adds {
            self.arc_columns += 1;
        }
        Ok(())
    }
}

fn has_arc(arcs: &[ArcPart], row: usize, column: usize) -> bool
    ensures { result ≡ has_arc arcs.now row column }
{
    arcs.iter().any(|arc| row == arc.row as usize && column == arc.column as usize)
}

fn is_zero(value: &Decimal) -> bool
    ensures { result ≡ is_zero value.now }
{
    value.digits == 0
}
