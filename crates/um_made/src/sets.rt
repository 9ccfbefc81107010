//! The members of sets, by rising weight.

ghost use Rattle.std.specs.Prelude.{◌≡◌, ◌⊎◌, ◌<◌, ◌≤◌, length, map, flat_map, All, IfOk, MatchResult, None, Some, true, false, unsigned_abs, nat_le, nat_lt, if◌then◌else◌};
ghost use Rattle.std.specs.List.{list_any};
ghost use Rattle.std.specs.Option.{ForSome, option_map_or};
ghost use Rattle.um_statements.specs.declared.fault.Fault.TheVariants.{Memory as MemoryFault, TooLarge as TooLargeFault};
ghost use Rattle.um_statements.specs.Scaled.{least_scale};
ghost use Rattle.um_statements.specs.WellSaid.{IsSetSaid, IsMemberSaid};
ghost use Rattle.um_statements.specs.Made.{coefficients, weight_of, members_of, by_weight};
ghost use Rattle.um_statements.specs.DeckRules.{set_rules};
ghost use Rattle.um_model.specs.declared.deck.Member.{Member as MemberOf};
ghost use Rattle.um_made.specs.Views.{set_said};
ghost use Rattle.um_made.specs.Makes.{Makes};
ghost use Rattle.um_made.specs.SetWords.{has_twice_behind, is_weight, HasWeights, AreMembersOf, HasFineReference, numbers_at};
ghost use Rattle.um_made.specs.ColumnWords.{entry_at};

use crate::SetPart;
use crate::numbers::RowNumbers;
use crate::push::push;
use crate::scaled::{least_scale, scaled_within};
use crate::told::Told;
use std::alloc::Global;
use um_model::Member;
use um_model::limits::{MOST_SCALE, MOST_WEIGHT};
use um_num::{Decimal, List, Memory, Name};
use um_statements::{EntryPart, Fault, MemberPart};

/// The scale of weights.
const WEIGHT_SCALE: u32 = 6;

impl Told {
    ghost use Rattle.um_statements.specs.WellSaid.{IsSaid};
    ghost use Rattle.um_made.specs.Parts.{said};
    ghost use Rattle.um_made.specs.RowWords.{AreNumbers};

    /// The members of each set, by rising weight.
    pub fn sets_left(
        &self,
        alloc: Global,
        numbers: &[RowNumbers],
    ) -> Result<Vec<List<Member>>, Fault>
        requires well { IsSaid (said self.now) }
        requires numbers { AreNumbers (said self.now) numbers.now }
        ensures { Makes (flat_map (set_rules (said self.now)) (said self.now).sets) (λ left. AreMembersOf (said self.now) (said self.now).sets left.items) result }
    {
        let mut left = Vec::new(alloc);
        for set in &self.sets {
            let members = match self.members_by_weight(alloc, numbers, set) {
                Ok(members) => members,
                Err(fault) => return Err(fault),
            };
            push(&mut left, members)?;
        }
        Ok(left)
    }

    fn members_by_weight(
        &self,
        alloc: Global,
        numbers: &[RowNumbers],
        set: &(Name, SetPart),
    ) -> Result<List<Member>, Fault>
        requires well { IsSaid (said self.now) }
        requires numbers { AreNumbers (said self.now) numbers.now }
        requires set { IsSetSaid (length self.now.rows.items) (length self.now.columns.items) (set_said set.now) }
        ensures { Makes (set_rules (said self.now) (set_said set.now)) (λ members. members.items ≡ by_weight (members_of (said self.now) (set_said set.now))) result }
    {
        if is_too_fine(numbers, set.1.reference) {
            return Err(Fault::TooFine);
        }
        let mut members = match self.weighted(alloc, set) {
            Ok(members) => members,
            Err(fault) => return Err(fault),
        };
        if set.1.members.is_empty() {
            return Err(Fault::EmptySet);
        }
        members.sort_unstable_by_key(|member| member.weight);
        if has_twice(&members) {
            return Err(Fault::TwiceWeight);
        }
        Ok(List::from_slice(alloc, &members)?)
    }

    /// The members with their weights, as they were told; a fault where one is too large.
    fn weighted(&self, alloc: Global, set: &(Name, SetPart)) -> Result<Vec<Member>, Fault>
        requires well { IsSaid (said self.now) }
        requires set { IsSetSaid (length self.now.rows.items) (length self.now.columns.items) (set_said set.now) }
        requires fine { HasFineReference (said self.now) (set_said set.now) }
        ensures { HasWeights (λ v. v.items) (said self.now) (set_said set.now) result }
    {
        let mut members = Vec::new(alloc);
        for member in set.1.members.as_slice() {
            let Some(weight) = self.weight(set, member) else {
                return Err(Fault::TooLarge);
            };
            push(&mut members, of_weight(member.column, weight))?;
        }
        Ok(members)
    }

    /// The weight of a member, its own or what its column has in the reference row; `None` where it is too large.
    fn weight(&self, set: &(Name, SetPart), member: &MemberPart) -> Option<i64>
        requires well { IsSaid (said self.now) }
        requires fine { HasFineReference (said self.now) (set_said set.now) }
        requires member { IsMemberSaid (length self.now.columns.items) member.now }
        ensures { result ≡ (if nat_le (unsigned_abs (weight_of (said self.now) (set_said set.now) member.now)) MOST_WEIGHT then Some (weight_of (said self.now) (set_said set.now) member.now) else None) }
    {
        let Some(place) = set.1.reference else {
            return Some(member.weight.unwrap_or(0));
        };
        match entry_in(
            place,
            self.columns[member.column as usize].1.entries.as_slice(),
        ) {
            Some(value) => scaled_within(MOST_WEIGHT, WEIGHT_SCALE, &value),
            None => Some(0),
        }
    }
}

fn of_weight(column: u32, weight: i64) -> Member
    ensures { result ≡ record { column = column; weight = weight } }
{
    Member { column, weight }
}

/// Whether a reference row has a coefficient that is too fine.
fn is_too_fine(numbers: &[RowNumbers], reference: Option<u32>) -> bool
    requires { ForSome reference (λ place. place < length numbers.now) }
    ensures { result ≡ option_map_or (λ place. nat_lt MOST_SCALE (least_scale (numbers_at numbers.now place))) reference false }
{
    match reference {
        Some(place) => least_scale(numbers[place as usize].coefficients.as_slice()) > MOST_SCALE,
        None => false,
    }
}

/// What the entries of a column have in a row.
fn entry_in(row: u32, entries: &[EntryPart]) -> Option<Decimal>
    ensures { result ≡ entry_at row entries.now }
{
    let entry = entries.iter().find(|entry| entry.row == row)?;
    Some(entry.value)
}

/// Whether two members that stand side by side have one weight.
fn has_twice(members: &[Member]) -> bool
    ensures { result ≡ has_twice_behind None members.now }
{
    let mut last = None;
    for member in members {
        if is_weight(last, member.weight) {
            return true;
        }
        last = Some(member.weight);
    }
    false
}

/// Whether there was a last weight, and it is this.
fn is_weight(last: Option<i64>, weight: i64) -> bool
    ensures { result ≡ is_weight last weight }
{
    match last {
        Some(last) => last == weight,
        None => false,
    }
}
