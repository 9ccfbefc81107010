//! The numbers that stand in each row.

ghost use Rattle.std.specs.Prelude.{◌≡◌, ◌≢◌, ◌<◌, length, All, AllPairs, IfOk, OnOk};
ghost use Rattle.um_statements.specs.declared.parts.EntryPart.{EntryPart as Entry};
ghost use Rattle.um_statements.specs.declared.parts.ArcPart.{ArcPart as Arc};
ghost use Rattle.um_made.specs.NumberSteps.{AreEmpty, PutsEntries, PutsArcs};

use crate::told::Told;
use std::alloc::Global;
use um_num::{Decimal, List, Memory};
use um_statements::{ArcPart, EntryPart};

/// What columns and arcs have in one row.
#[derive(Debug, Drop)]
pub struct RowNumbers {
    /// By column.
    pub coefficients: List<Decimal>,
    /// In the order of the text.
    pub arcs: List<Decimal>,
}

impl Told {
    ghost use Rattle.um_statements.specs.WellSaid.{IsSaid};
    ghost use Rattle.um_made.specs.Parts.{said};
    ghost use Rattle.um_made.specs.RowWords.{AreNumbers};
    ghost use Rattle.um_made.specs.NumberSteps.{PutsColumns};

    /// What stands in each row, by one walk over the columns.
    pub fn numbers(&self, alloc: Global) -> Result<List<RowNumbers>, Memory>
        requires well { IsSaid (said self.now) }
        ensures { IfOk result (λ list. AreNumbers (said self.now) list.items) }
    {
        let mut rows = no_numbers(alloc, self.rows.len())?;
        self.put_columns(&mut rows)?;
        put_arcs(&mut rows, self.arcs.as_slice())?;
        Ok(rows)
    }

    fn put_columns(&self, rows: &mut List<RowNumbers>) -> Result<(), Memory>
        requires well { IsSaid (said self.now) }
        requires empty { AreEmpty (length self.now.rows.items) rows.old.items }
        ensures { OnOk result (PutsColumns (length self.now.rows.items) (said self.now).columns rows.new.items) }
    {
        for column in &self.columns {
            put_entries(rows, column.1.entries.as_slice())?;
        }
        Ok(())
    }
}

fn no_numbers(alloc: Global, count: usize) -> Result<List<RowNumbers>, Memory>
    ensures { IfOk result (λ list. AreEmpty count list.items) }
{
    let mut rows = List::new(alloc);
    for _made in 0..count {
        rows.push(RowNumbers {
            coefficients: List::new(alloc),
            arcs: List::new(alloc),
        })?;
    }
    Ok(rows)
}

/// Puts the entries of one column into their rows.
fn put_entries(rows: &mut List<RowNumbers>, entries: &[EntryPart]) -> Result<(), Memory>
    requires within { All (λ (e : Entry). e.row < length rows.old.items) entries.now }
    requires distinct { AllPairs (λ (a : Entry) (b : Entry). a.row ≢ b.row) entries.now }
    ensures { OnOk result (PutsEntries entries.now rows.old.items rows.new.items) }
{
    for entry in entries {
        rows.at_mut(entry.row as usize)
            .coefficients
            .push(entry.value)?;
    }
    Ok(())
}

/// Puts arcs into their rows.
fn put_arcs(rows: &mut List<RowNumbers>, arcs: &[ArcPart]) -> Result<(), Memory>
    requires { All (λ (a : Arc). a.row < length rows.old.items) arcs.now }
    ensures { OnOk result (PutsArcs arcs.now rows.old.items rows.new.items) }
{
    for arc in arcs {
        rows.at_mut(arc.row as usize).arcs.push(arc.value)?;
    }
    Ok(())
}
