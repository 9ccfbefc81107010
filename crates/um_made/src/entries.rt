//! Costs, entries by rising row, and arcs: numbers at the scales of their rows.

ghost use Rattle.std.specs.Prelude.{◌≡◌, ◌≢◌, ◌<◌, ◌≤◌, ◌^◌, length, map, flat_map, All, AllPairs, IfOk, None, pos, true, slice_index_or, unsigned_abs, unwrap_or};
ghost use Rattle.std.specs.Option.{ForSome};
ghost use Rattle.std.specs.List.{enumerate_from, filter_map};
ghost use Rattle.um_statements.specs.declared.parts.EntryPart.{EntryPart as Part};
ghost use Rattle.um_statements.specs.CallRules.{first_fault, is_zero};
ghost use Rattle.um_statements.specs.Scaled.{times_ten};
ghost use Rattle.um_statements.specs.Made.{sided_rows, objective, for_minimising, arc_made, nothing};
ghost use Rattle.um_statements.specs.DeckRules.{row_rules, objective_rules};
ghost use Rattle.um_made.specs.declared.rows.SidedRow.{SidedRow as SidedRowOf};
ghost use Rattle.um_made.specs.ColumnWords.{AreSlots, AreColumnsLeft, IsColumnLeft, Fits, entry_of};
ghost use Rattle.um_made.specs.Views.{column_said};
ghost use Rattle.um_model.specs.declared.limits.TheConstants.{MOST_SCALE};

use crate::ColumnPart;
use crate::columns::{ColumnLeft, high_end, kind_of, low_end};
use crate::push::push;
use crate::rows::{Objective, SidedRow};
use crate::scaled::scaled_within;
use crate::told::Told;
use std::alloc::Global;
use um_model::limits::{MOST_ARC, MOST_COEFFICIENT};
use um_model::{Arc, Entry};
use um_num::{Decimal, List, Memory, Name};
use um_statements::EntryPart;

impl Told {
    ghost use Rattle.um_statements.specs.WellSaid.{IsSaid};
    ghost use Rattle.um_made.specs.Parts.{said};
    ghost use Rattle.um_made.specs.RowWords.{IsObjective, sided_row, HaveNoFault};
    ghost use Rattle.um_made.specs.ColumnWords.{HasColumn};

    /// Each column but for its name.
    pub fn columns_left(
        &self,
        alloc: Global,
        objective: &Objective,
        rows: &[SidedRow],
    ) -> Result<Vec<ColumnLeft>, Memory>
        requires well { IsSaid (said self.now) }
        requires objective { IsObjective (said self.now) objective.now }
        requires rows { rows.now ≡ map (sided_row (said self.now)) (sided_rows (said self.now)) }
        requires fine { HaveNoFault (said self.now) }
        ensures { IfOk result (λ left. AreColumnsLeft (said self.now) (said self.now).columns left.items) }
    {
        let mut left = Vec::new(alloc);
        for column in &self.columns {
            let one = self.column_left(alloc, objective, rows, column)?;
            push(&mut left, one)?;
        }
        Ok(left)
    }

    fn column_left(
        &self,
        alloc: Global,
        objective: &Objective,
        rows: &[SidedRow],
        column: &(Name, ColumnPart),
    ) -> Result<ColumnLeft, Memory>
        requires well { IsSaid (said self.now) }
        requires objective { IsObjective (said self.now) objective.now }
        requires rows { rows.now ≡ map (sided_row (said self.now)) (sided_rows (said self.now)) }
        requires fine { HaveNoFault (said self.now) }
        requires column { HasColumn (said self.now) (column_said column.now) }
        ensures { IfOk result (λ left. IsColumnLeft (said self.now) (column_said column.now) left) }
    {
        let slots = slots(alloc, self.rows.len(), column.1.entries.as_slice())?;
        let cost = cost_of(slots[objective.place as usize], objective.scale);
        Ok(ColumnLeft {
            kind: kind_of(&column.1.ends),
            low: low_end(&column.1.ends),
            high: high_end(&column.1.ends),
            cost: for_minimising(self.maximise, cost),
            entries: entries(alloc, &slots, rows)?,
        })
    }

    /// The arcs of the objective, in the order of the text; a zero arc is not kept.
    pub fn arcs(&self, alloc: Global, objective: &Objective) -> Result<List<Arc>, Memory>
        requires well { IsSaid (said self.now) }
        requires objective { IsObjective (said self.now) objective.now }
        requires fine { HaveNoFault (said self.now) }
        ensures { IfOk result (λ list. list.items ≡ filter_map (arc_made (said self.now)) (said self.now).arcs) }
    {
        let mut arcs = List::new(alloc);
        for arc in self.arcs.as_slice() {
            if is_zero(&arc.value) {
                continue;
            }
            let value = scaled(MOST_ARC, objective.scale, &arc.value);
            arcs.push(Arc {
                row: None,
                column: arc.column,
                value: for_minimising(self.maximise, value),
            })?;
        }
        Ok(arcs)
    }
}

/// What a column has in each row.
fn slots(alloc: Global, count: usize, entries: &[EntryPart]) -> Result<Vec<Option<Decimal>>, Memory>
    requires within { All (λ (e : Part). e.row < count) entries.now }
    requires distinct { AllPairs (λ (a : Part) (b : Part). a.row ≢ b.row) entries.now }
    ensures { IfOk result (λ slots. AreSlots entries.now count slots.items) }
{
    let mut slots = vec![in alloc; None; count]?;
    for entry in entries {
        slots[entry.row as usize] = Some(entry.value);
    }
    Ok(slots)
}

/// What stands in the rows of the deck, in their order and scaled; zeros are not kept.
fn entries(
    alloc: Global,
    slots: &[Option<Decimal>],
    rows: &[SidedRow],
) -> Result<List<Entry>, Memory>
    requires count { length rows.now ≤ 1024 }
    requires within { All (λ (r : SidedRowOf). r.place < length slots.now) rows.now }
    requires scales { All (λ (r : SidedRowOf). r.scale ≤ MOST_SCALE) rows.now }
    requires fit { All (λ (r : SidedRowOf). ForSome (slice_index_or slots.now r.place None) (Fits MOST_COEFFICIENT r.scale)) rows.now }
    ensures { IfOk result (λ list. list.items ≡ filter_map (entry_of slots.now) (enumerate_from 0 rows.now)) }
{
    let mut list = List::new(alloc);
    for (number, row) in rows.iter().enumerate() {
        let Some(value) = slots[row.place as usize] else {
            continue;
        };
        if is_zero(&value) {
            continue;
        }
        list.push(Entry {
            row: number as u32,
            value: scaled(MOST_COEFFICIENT, row.scale, &value),
        })?;
    }
    Ok(list)
}

/// What stands in the objective, scaled; 0 where nothing does.
fn cost_of(slot: Option<Decimal>, scale: u8) -> i64
    requires scale { scale ≤ MOST_SCALE }
    requires fits { ForSome slot (Fits MOST_COEFFICIENT scale) }
    ensures value { result ≡ times_ten (unwrap_or slot nothing) scale }
    ensures size { unsigned_abs result ≤ MOST_COEFFICIENT }
{
    match slot {
        Some(cost) => scaled(MOST_COEFFICIENT, scale, &cost),
        None => 0,
    }
}

fn is_zero(value: &Decimal) -> bool
    ensures { result ≡ is_zero value.now }
{
    value.digits == 0
}

/// The number at the scale.
fn scaled(most: u64, scale: u8, value: &Decimal) -> i64
    requires scale { scale ≤ MOST_SCALE }
    requires most { most < 2 ^ 63 }
    requires fits { Fits most scale value.now }
    ensures value { result ≡ times_ten value.now scale }
    ensures size { unsigned_abs result ≤ most }
{
    match scaled_within(most, u32::from(scale), value) {
        Some(scaled) => scaled,
        None => unreachable!(),
    }
}

/// Costs and what goes with them are kept as for minimising.
pub fn for_minimising(maximise: bool, number: i64) -> i64
    requires { unsigned_abs number < 2 ^ 63 }
    ensures { result ≡ for_minimising maximise number }
{
    if maximise { -number } else { number }
}
