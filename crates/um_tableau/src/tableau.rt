//! The dense board.

ghost use Rattle.std.specs.Prelude.{◌<◌, ◌^◌, IfOk};
ghost use Rattle.um_lp.specs.Boards.{IsStart};
ghost use Rattle.um_lp.specs.Relaxations.{frame_of, IsRelaxation};
ghost use Rattle.um_lp.specs.States.{width};
ghost use Rattle.um_tableau.specs.Sheets.{state_of, AreEndsInRange, IsSpare};
ghost use Rattle.um_tableau.specs.Starts.{AreFirstLines};
ghost use Rattle.um_tableau.specs.Stands.{Stands, board_of};

use crate::given::Given;
use crate::making::{first_lines, first_sheet, first_spare};
use crate::reset::FirstLines;
use crate::sheet::{Sheet, Spare};
use std::alloc::Global;
use std::cmp::Ordering;
use um_lp::{At, Board, Costs, Relaxation};
use um_num::{Frac, Memory, Wide};

/// A board that holds all rows of its tableau.
#[derive(Debug, Drop)]
pub struct Tableau {
    given: Given,
    first: FirstLines,
    sheet: Sheet,
    spare: Spare,
    ghost size: { width given < 2 ^ 32 },
    ghost first_are: { AreFirstLines given first },
    ghost stands: { Stands (state_of given sheet) },
    ghost ends_in: { AreEndsInRange sheet.ends.items },
    ghost room: { IsSpare sheet spare },
}

impl Tableau {
    /// The board of a relaxation: every slack basic, every other column at its low end, and all ends
    /// 0. All memory is taken here, the places for grid points too. The error is want of memory.
    pub fn new(alloc: Global, relaxation: &Relaxation) -> Result<Tableau, Memory>
        requires { IsRelaxation relaxation.now }
        ensures { IfOk result (λ tableau. IsStart (frame_of relaxation.now) (⟦<Tableau as Board>⟧.state tableau)) }
    {
        let given = Given::new(alloc, relaxation)?;
        let first = first_lines(alloc, &given)?;
        let sheet = first_sheet(alloc, &given)?;
        let spare = first_spare(alloc, &given)?;
        Ok(Tableau {
            given,
            first,
            sheet,
            spare,
        })
    }
}

impl Board for Tableau {
    ghost state = { λ t. state_of t.given t.sheet };

    ghost Keeps = { λ _ _. Unit {0} };

    ghost belongs = { λ t. board_of (state_of t.given t.sheet) t.stands };

    ghost keeps_refl = { λ _. tt };

    ghost keeps_trans = { λ _ _ _ _ _. tt };

    fn rows(&self) -> u32 {
        self.given.rows()
    }

    fn columns(&self) -> u32 {
        self.given.width()
    }

    fn costs(&self) -> Costs {
        self.sheet.costs
    }

    fn at(&self, column: u32) -> At {
        self.sheet.at[column as usize]
    }

    fn basic(&self, row: u32) -> u32 {
        self.sheet.basic[row as usize]
    }

    fn ends(&self, column: u32) -> (Option<i128>, Option<i128>) {
        self.sheet.ends[column as usize]
    }

    fn entry(&self, row: u32, column: u32) -> Result<Frac, Wide> {
        Ok(self.sheet.entries[row as usize].get(column as usize))
    }

    fn sign(&self, row: u32, column: u32) -> Result<Ordering, Wide> {
        Ok(self.sheet.entries[row as usize].sign(column as usize))
    }

    fn cost(&self, column: u32) -> Result<Frac, Wide> {
        Ok(self.sheet.reduced.get(column as usize))
    }

    fn value(&self, column: u32) -> Result<Frac, Wide> {
        Ok(self.sheet.values[column as usize])
    }

    fn pivot(&mut self, row: u32, column: u32, to: At) -> Result<(), Wide> {
        self.sheet
            .pivot(row as usize, column as usize, to, &mut self.spare)
    }

    fn rebox(&mut self, column: u32, low: Option<i128>, high: Option<i128>) -> Result<(), Wide> {
        self.sheet
            .rebox(column as usize, low, high, &mut self.spare)
    }

    fn reset(&mut self, costs: Costs) -> Result<(), Wide> {
        self.sheet
            .reset(&self.given, &self.first, costs, &mut self.spare)
    }
}
