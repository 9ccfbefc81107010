//! The parts of the deck that was said.

ghost use Rattle.std.specs.Prelude.{◌≡◌, ◌≤◌, IfOk, map, unsigned_abs, neg_ℤ};
ghost use Rattle.um_statements.specs.Made.{sided_rows, for_minimising};
ghost use Rattle.um_statements.specs.DeckRules.{deck_rules};
ghost use Rattle.um_made.specs.Makes.{Makes};
ghost use Rattle.um_model.specs.declared.limits.TheConstants.{MOST_SIDE};

use crate::entries::for_minimising;
use crate::named::{named_columns, named_rows, named_sets};
use crate::rows::{Objective, SidedRow};
use crate::told::Told;
use std::alloc::Global;
use um_deck::DeckParts;
use um_model::Member;
use um_num::{List, Memory, Name};
use um_statements::Fault;

impl Told {
    ghost use Rattle.um_statements.specs.WellSaid.{IsSaid};
    ghost use Rattle.um_made.specs.Parts.{said, AreParts};
    ghost use Rattle.um_made.specs.RowWords.{IsObjective, sided_row, HaveNoFault};
    ghost use Rattle.um_made.specs.SetWords.{AreMembersOf};

    /// The parts of the deck, or the first of the rules on the whole deck that is broken.
    pub fn parts(self, alloc: Global) -> Result<DeckParts, Fault>
        requires well { IsSaid (said self) }
        ensures { Makes (deck_rules (said self)) (AreParts (said self)) result }
    {
        let numbers = self.numbers(alloc)?;
        let objective = match self.objective(numbers.as_slice()) {
            Ok(objective) => objective,
            Err(fault) => return Err(fault),
        };
        let rows = match self.sided_rows(alloc, numbers.as_slice()) {
            Ok(rows) => rows,
            Err(fault) => return Err(fault),
        };
        let members = self.member_marks(alloc)?;
        let arcs = self.arc_marks(alloc)?;
        match self.column_fault(&members, &arcs) {
            Some(fault) => return Err(fault),
            None => {}
        }
        let sets = match self.sets_left(alloc, numbers.as_slice()) {
            Ok(sets) => sets,
            Err(fault) => return Err(fault),
        };
        let parts = self.put_together(alloc, &objective, rows.as_slice(), sets)?;
        Ok(parts)
    }

    fn put_together(
        self,
        alloc: Global,
        objective: &Objective,
        rows: &[SidedRow],
        sets: Vec<List<Member>>,
    ) -> Result<DeckParts, Memory>
        requires well { IsSaid (said self) }
        requires objective { IsObjective (said self) objective.now }
        requires rows { rows.now ≡ map (sided_row (said self)) (sided_rows (said self)) }
        requires fine { HaveNoFault (said self) }
        requires sets { AreMembersOf (said self) (said self).sets sets.items }
        ensures { IfOk result (AreParts (said self)) }
    {
        let columns = self.columns_left(alloc, objective, rows)?;
        let arcs = self.arcs(alloc, objective)?;
        let objective_name = Name::from_bytes(
            alloc,
            self.rows[objective.place as usize].0.as_bytes(),
        )?;
        let constant = constant_of(self.maximise, objective.side);
        Ok(DeckParts {
            name: self.name,
            objective_name,
            maximise: self.maximise,
            scale: objective.scale,
            constant,
            rows: named_rows(alloc, self.rows, rows)?,
            columns: named_columns(alloc, self.columns, columns)?,
            sets: named_sets(alloc, self.sets, sets)?,
            arcs,
        })
    }
}

/// The constant is the negative of the objective's right-hand side, and is kept as for minimising.
fn constant_of(maximise: bool, side: i64) -> i64
    requires { unsigned_abs side ≤ MOST_SIDE }
    ensures { result ≡ for_minimising maximise (neg_ℤ side) }
{
    for_minimising(maximise, -side)
}
