//! The sheet of a board at its making, and its room.

ghost use Rattle.std.specs.Prelude.{◌≡◌, length, IfOk};
ghost use Rattle.um_lp.specs.States.{width};
ghost use Rattle.um_tableau.specs.Rows.{AreLong, AreSpare};
ghost use Rattle.um_tableau.specs.Sheets.{state_of, AreEndsInRange};
ghost use Rattle.um_lp.proofs.Starts.{HasSlackBasis};
ghost use Rattle.um_tableau.specs.Starts.{AreFirstLines};

use crate::given::Given;
use crate::lines::SpareLines;
use crate::reset::FirstLines;
use crate::sheet::{Sheet, Spare};
use crate::start::{
    first_basic, first_costs, first_statuses, no_costs, system_rows, zero_ends, zero_line,
    zero_values,
};
use std::alloc::{AllocError, Global};
use um_lines::Line;
use um_lp::Costs;

/// The sheet of the slack basis.
pub fn first_sheet(alloc: Global, given: &Given) -> Result<Sheet, AllocError>
    ensures basis { IfOk result (λ sheet. HasSlackBasis (state_of given.now sheet)) }
    ensures costs { IfOk result (λ sheet. sheet.costs ≡ Costs.Given) }
    ensures ends { IfOk result (λ sheet. AreEndsInRange sheet.ends.items) }
{
    let width = given.width() as usize;
    let values = zero_values(alloc, width)?;
    let basic = first_basic(alloc, given)?;
    let at = first_statuses(alloc, given)?;
    let ends = zero_ends(alloc, width)?;
    let entries = system_rows(alloc, given)?;
    let reduced = first_costs(alloc, given)?;
    Ok(Sheet {
        basic,
        at,
        ends,
        entries,
        costs: Costs::Given,
        reduced,
        values,
    })
}

/// The lines of the slack basis, which a reset copies.
pub fn first_lines(alloc: Global, given: &Given) -> Result<FirstLines, AllocError>
    ensures { IfOk result (AreFirstLines given.now) }
{
    let rows = system_rows(alloc, given)?;
    let costs = first_costs(alloc, given)?;
    let zeros = no_costs(alloc, given)?;
    Ok(FirstLines { rows, costs, zeros })
}

/// Lines of zeros.
fn zero_lines(alloc: Global, rows: usize, width: usize) -> Result<Vec<Line>, AllocError>
    ensures height { IfOk result (λ lines. length lines.items ≡ rows) }
    ensures long { IfOk result (λ lines. AreLong width lines.items) }
{
    let mut lines = Vec::new(alloc);
    for _row in 0..rows {
        lines.push(zero_line(alloc, width)?)?;
    }
    Ok(lines)
}

/// Room for the numbers after an act.
pub fn first_spare(alloc: Global, given: &Given) -> Result<Spare, AllocError>
    ensures lines { IfOk result (λ spare. AreSpare given.now.rows (width given.now) spare.lines) }
    ensures moved { IfOk result (λ spare. length spare.moved.items ≡ given.now.rows) }
{
    let rows = given.rows() as usize;
    let width = given.width() as usize;
    Ok(Spare {
        lines: SpareLines {
            rows: zero_lines(alloc, rows, width)?,
            line: zero_line(alloc, width)?,
            reduced: zero_line(alloc, width)?,
        },
        moved: zero_values(alloc, rows)?,
    })
}
