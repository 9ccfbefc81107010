//! Ordered sets and their members, as a maker is told them.

ghost use Rattle.std.specs.Prelude.{◌≡◌, ◌<◌, length, false, true, not, nat_le, nat_eq, None, Some, IfOk, IfErr, OnOk, OnErr, is_some, option_map};
ghost use Rattle.std.specs.List.{list_any};
ghost use Rattle.std.specs.Option.{ForSome, option_copied, option_and_then, option_map_or};
ghost use Rattle.um_statements.specs.declared.parts.MemberPart.{MemberPart as MemberSaid};
ghost use Rattle.um_statements.specs.Scaled.{times_ten};
ghost use Rattle.um_statements.specs.CallRules.{first_fault};
ghost use Rattle.um_statements.specs.WellSaid.{IsNumber};
ghost use Rattle.um_maker.specs.Makers.{weight_rules};
ghost use Rattle.um_model.specs.declared.limits.TheConstants.{MOST_COLUMNS};

use crate::maker::DeckMaker;
use crate::{Fault, SetKind};
use um_made::SetPart;
use um_made::scaled::{decimals, scaled_within};
use um_model::limits::{MOST_SETS, MOST_WEIGHT};
use um_num::{Decimal, List, Memory};
use um_statements::MemberPart;

impl DeckMaker {
    ghost use Rattle.um_statements.specs.declared.fault.Fault.TheVariants.{UnknownRow};
    ghost use Rattle.um_statements.specs.CallRules.{has_row, has_set, last_has, with_statement};
    ghost use Rattle.um_statements.specs.Tells.{Tells, wants_weight};
    ghost use Rattle.um_statements.specs.Said.{SetSaid, row_place, column_place};
    ghost use Rattle.um_statements.specs.Statements.{Set, MemberTold};

    /// Begins a set. Its members' weights are what their columns have in the reference row, or are told.
    /// Faults: `UnknownRow`; `TwiceSet`; `TooMany` behind 256 sets; `Memory`.
    pub fn set(&mut self, kind: SetKind, name: &[u8], reference: Option<&[u8]>) -> Result<(), Fault>
        ensures { Tells (Set kind name.now (option_copied reference.entry)) self.old result self.new }
    {
        let place = self.reference_place(reference)?;
        if self.has_set(name) {
            return Err(Fault::TwiceSet);
        }
        if self.is_full_of_sets() {
            return Err(Fault::TooMany);
        }
        self.push_set(kind, name, reference, place)?;
        Ok(())
    }

    fn reference_place(&self, reference: Option<&[u8]>) -> Result<Option<u32>, Fault>
        ensures place { IfOk result (λ place. place ≡ option_and_then (row_place self.now.rows) (option_copied reference.entry)) }
        ensures known { IfOk result (λ place. option_map_or (λ row. not (has_row self.now row)) (option_copied reference.entry) false ≡ false) }
        ensures unknown { IfErr result (λ fault. (fault ≡ UnknownRow) × (option_map_or (λ row. not (has_row self.now row)) (option_copied reference.entry) false ≡ true)) }
    {
        match reference {
            Some(row) => {
                match self.row_place(row) {
                    Some(place) => Ok(Some(place as u32)),
                    None => Err(Fault::UnknownRow),
                }
            }
            None => Ok(None),
        }
    }

    fn has_set(&self, name: &[u8]) -> bool
        ensures { result ≡ has_set self.now name.now }
    {
        self.sets.place(name).is_some()
    }

    fn is_full_of_sets(&self) -> bool
        ensures { result ≡ nat_le MOST_SETS (length self.now.sets) }
    {
        self.sets.len() >= MOST_SETS
    }

    /// `reference` has this place.
    fn push_set(
        &mut self,
        kind: SetKind,
        name: &[u8],
        reference: Option<&[u8]>,
        place: Option<u32>,
    ) -> Result<(), Memory>
        requires place { place ≡ option_and_then (row_place self.old.rows) (option_copied reference) }
        requires known { option_map_or (λ row. not (has_row self.old row)) (option_copied reference) false ≡ false }
        requires new { has_set self.old name.now ≡ false }
        requires room { nat_le MOST_SETS (length self.old.sets) ≡ false }
        ensures ok { OnOk result (self.new ≡ with_statement (Set kind name.now (option_copied reference.entry)) self.old) }
        ensures err { OnErr result (self.new ≡ self.old) }
    {
        let part = SetPart {
            kind,
            reference: place,
            members: List::new(self.alloc),
        };
        self.sets.push(name, part)?;
        Ok(())
    }

    /// Whether members of the last set are told with a weight; `None` exactly where no set was made.
    pub fn wants_weight(&self) -> Option<bool>
        ensures { result ≡ wants_weight self.now }
    {
        match self.sets.last() {
            Some(set) => Some(set.reference.is_none()),
            None => None,
        }
    }

    /// Puts a column into the last set. Faults: `UnknownColumn`; `TwiceMember`; `TooFine` at a weight of more than
    /// six decimals; `TooLarge` above 2^31 in size; `Memory`.
    pub fn member(&mut self, column: &[u8], weight: Option<&Decimal>) -> Result<(), Fault>
        requires needed { wants_weight self.old ≡ Some (is_some weight) }
        requires number { ForSome (option_copied weight) IsNumber }
        ensures { Tells (MemberTold column.now (option_copied weight.entry)) self.old result self.new }
    {
        match self.column_place(column) {
            Some(place) => {
                if self.has_member(place) {
                    return Err(Fault::TwiceMember);
                }
                let millionths = millionths_of(weight)?;
                self.push_member(column, place, weight, millionths)?;
                Ok(())
            }
            None => Err(Fault::UnknownColumn),
        }
    }

    fn has_member(&self, place: usize) -> bool
        ensures { result ≡ last_has (λ (s : SetSaid). list_any (λ (m : MemberSaid). nat_eq place m.column) s.members) self.now.sets }
    {
        match self.sets.last() {
            Some(set) => holds_column(place, set.members.as_slice()),
            None => false,
        }
    }

    /// `column` has this place, and `weight` is so many millionths.
    fn push_member(
        &mut self,
        column: &[u8],
        place: usize,
        weight: Option<&Decimal>,
        millionths: Option<i64>,
    ) -> Result<(), Memory>
        requires some { 0 < length self.old.sets }
        requires place { column_place self.old.columns column.now ≡ Some place }
        requires within { place < MOST_COLUMNS }
        requires number { ForSome (option_copied weight) IsNumber }
        requires fits { first_fault (weight_rules (option_copied weight)) ≡ None }
        requires millionths { millionths ≡ option_map (λ v. times_ten v 6) (option_copied weight) }
        requires new { last_has (λ (s : SetSaid). list_any (λ (m : MemberSaid). nat_eq place m.column) s.members) self.old.sets ≡ false }
        ensures ok { OnOk result (self.new ≡ with_statement (MemberTold column.now (option_copied weight.entry)) self.old) }
        ensures err { OnErr result (self.new ≡ self.old) }
    {
        let part = MemberPart {
            column: place as u32,
            weight: millionths,
        };
        let last = self.sets.len() - 1;
        self.sets.at_mut(last).members.push(part)
    }
}

fn holds_column(place: usize, members: &[MemberPart]) -> bool
    ensures { result ≡ list_any (λ (m : MemberSaid). nat_eq place m.column) members.now }
{
    members.iter().any(|member| place == member.column as usize)
}

/// A weight in millionths, or the rule that it breaks.
fn millionths_of(weight: Option<&Decimal>) -> Result<Option<i64>, Fault>
    requires number { ForSome (option_copied weight) IsNumber }
    ensures value { IfOk result (λ millionths. millionths ≡ option_map (λ v. times_ten v 6) (option_copied weight.entry)) }
    ensures fits { IfOk result (λ millionths. first_fault (weight_rules (option_copied weight.entry)) ≡ None) }
    ensures broken { IfErr result (λ fault. first_fault (weight_rules (option_copied weight.entry)) ≡ Some fault) }
{
    match weight {
        Some(weight) => {
            if decimals(weight) > 6 {
                return Err(Fault::TooFine);
            }
            match scaled_within(MOST_WEIGHT, 6, weight) {
                Some(millionths) => Ok(Some(millionths)),
                None => Err(Fault::TooLarge),
            }
        }
        None => Ok(None),
    }
}
