//! Which columns are members of sets, and which have an arc.

ghost use Rattle.std.specs.Prelude.{◌≡◌, ◌<◌, length, All, IfOk, nat_eq, false};
ghost use Rattle.std.specs.List.{list_any};
ghost use Rattle.um_statements.specs.declared.parts.MemberPart.{MemberPart as Member};
ghost use Rattle.um_statements.specs.CallRules.{has_kept_arc};
ghost use Rattle.um_statements.specs.DeckRules.{is_member};
ghost use Rattle.um_made.specs.ColumnWords.{AreMarks, Marked};

use crate::told::Told;
use std::alloc::Global;
use um_num::Memory;
use um_statements::MemberPart;

impl Told {
    ghost use Rattle.um_statements.specs.WellSaid.{IsSaid};
    ghost use Rattle.um_made.specs.Parts.{said};

    /// Whether each column is a member of a set.
    pub fn member_marks(&self, alloc: Global) -> Result<Vec<bool>, Memory>
        requires well { IsSaid (said self.now) }
        ensures { IfOk result (λ marks. AreMarks (is_member (said self.now)) (length self.now.columns.items) marks.items) }
    {
        let mut marks = no_marks(alloc, self.columns.len())?;
        self.mark_sets(&mut marks);
        Ok(marks)
    }

    fn mark_sets(&self, marks: &mut [bool])
        requires well { IsSaid (said self.now) }
        requires count { length marks.old ≡ length self.now.columns.items }
        ensures { Marked (is_member (said self.now)) marks.old marks.new }
    {
        for set in &self.sets {
            mark_members(marks, set.1.members.as_slice());
        }
    }

    /// Whether each column has an arc that is not 0.
    pub fn arc_marks(&self, alloc: Global) -> Result<Vec<bool>, Memory>
        requires well { IsSaid (said self.now) }
        ensures { IfOk result (λ marks. AreMarks (has_kept_arc (said self.now)) (length self.now.columns.items) marks.items) }
    {
        let mut marks = no_marks(alloc, self.columns.len())?;
        self.mark_arcs(&mut marks);
        Ok(marks)
    }

    fn mark_arcs(&self, marks: &mut [bool])
        requires well { IsSaid (said self.now) }
        requires count { length marks.old ≡ length self.now.columns.items }
        ensures { Marked (has_kept_arc (said self.now)) marks.old marks.new }
    {
        for arc in self.arcs.as_slice() {
            if arc.value.digits != 0 {
                marks[arc.column as usize] = true;
            }
        }
    }
}

/// So many marks, none of which is set.
fn no_marks(alloc: Global, count: usize) -> Result<Vec<bool>, Memory>
    ensures { IfOk result (λ marks. AreMarks (λ j. false) count marks.items) }
{
    let marks = vec![in alloc; false; count]?;
    Ok(marks)
}

fn mark_members(marks: &mut [bool], members: &[MemberPart])
    requires { All (λ (m : Member). m.column < length marks.old) members.now }
    ensures { Marked (λ j. list_any (λ (m : Member). nat_eq m.column j) members.now) marks.old marks.new }
{
    for member in members {
        marks[member.column as usize] = true;
    }
}
