//! Bounds on columns, as a maker is told them.

ghost use Rattle.std.specs.Prelude.{◌≡◌, ◌<◌, ◌^◌, nat_le, unsigned_abs, ◌≤ℤ◌, ◌+ℤ◌, pos, length, false, None, Some, Option as Maybe, ◌&&◌, ◌||◌, IfOk, IfErr, is_some, option_map, slice_get};
ghost use Rattle.std.specs.Option.{ForSome, option_copied};
ghost use Rattle.um_num.specs.declared.decimal.Decimal.{Decimal as Number};
ghost use Rattle.um_statements.specs.Said.{is_endless, end_of, low_set, high_set, threshold_set, makes_fall, makes_integer, makes_semi, is_below_zero};
ghost use Rattle.um_statements.specs.Scaled.{IsShortDecimal, times_ten};
ghost use Rattle.um_statements.specs.CallRules.{first_fault, with_bound};
ghost use Rattle.um_statements.specs.WellSaid.{IsNumber};
ghost use Rattle.um_maker.specs.Makers.{value_rules};

use crate::maker::DeckMaker;
use crate::{BoundKind, Fault};
use um_made::scaled::{decimals, scaled_within, times_ten};
use um_model::limits::MOST_END;
use um_num::Decimal;
use um_statements::{End, Ends};

/// In thousandths: a high end from here on is infinite, and a low end from its negative down.
const ENDLESS: u128 = 100_000_000_000_000_000_000_000;

impl DeckMaker {
    ghost use Rattle.um_statements.specs.CallRules.{mixes, with_statement};
    ghost use Rattle.um_statements.specs.Tells.{TellsFree, needs_value};
    ghost use Rattle.um_statements.specs.Said.{ColumnSaid, column_place};
    ghost use Rattle.um_statements.specs.Statements.{Bound};

    /// Bounds a column. Of the bounds on a column the last that sets an end counts. Takes no memory.
    ///
    /// Faults: `UnknownColumn`; `TooFine` at more than three decimals; `TooLarge` above 10^7 in size, where it is no
    /// infinity; `SemiInteger`.
    pub fn bound(
        &mut self,
        kind: BoundKind,
        column: &[u8],
        value: Option<&Decimal>,
    ) -> Result<(), Fault>
        requires needed { needs_value kind ≡ is_some value }
        requires number { ForSome (option_copied value) IsNumber }
        ensures { TellsFree (Bound kind column.now (option_copied value.entry)) self.old result self.new }
    {
        match self.column_place(column) {
            Some(place) => {
                let end = end_of(kind, value)?;
                if self.mixes(place, kind) {
                    return Err(Fault::SemiInteger);
                }
                self.put_bound(column, place, kind, value, end);
                Ok(())
            }
            None => Err(Fault::UnknownColumn),
        }
    }

    fn mixes(&self, place: usize, kind: BoundKind) -> bool
        requires { place < length self.now.columns }
        ensures { Some result ≡ option_map (mixes kind) (slice_get self.now.columns place) }
    {
        mixes(kind, &self.columns.at(place).ends)
    }

    /// `column` has this place, and `value` is this end.
    fn put_bound(
        &mut self,
        column: &[u8],
        place: usize,
        kind: BoundKind,
        value: Option<&Decimal>,
        end: End,
    )
        requires place { column_place self.old.columns column.now ≡ Some place }
        requires within { place < length self.old.columns }
        requires number { ForSome (option_copied value) IsNumber }
        requires fits { first_fault (value_rules kind (option_copied value)) ≡ None }
        requires end { end ≡ end_of kind (option_copied value) }
        requires unmixed { option_map (mixes kind) (slice_get self.old.columns place) ≡ Some false }
        ensures { self.new ≡ with_statement (Bound kind column.now (option_copied value.entry)) self.old }
    {
        self.columns.known();
        let part = self.columns.at_mut(place);
        part.ends = with_bound(kind, end, part.ends);
    }
}

/// A bound's value as an end, or the rule that it breaks.
fn end_of(kind: BoundKind, value: Option<&Decimal>) -> Result<End, Fault>
    requires number { ForSome (option_copied value) IsNumber }
    ensures end { IfOk result (λ end. end ≡ end_of kind (option_copied value.entry)) }
    ensures fits { IfOk result (λ end. first_fault (value_rules kind (option_copied value.entry)) ≡ None) }
    ensures broken { IfErr result (λ fault. first_fault (value_rules kind (option_copied value.entry)) ≡ Some fault) }
{
    match value {
        Some(value) => {
            if decimals(value) > 3 {
                return Err(Fault::TooFine);
            }
            if is_endless(kind, value) {
                return Ok(End::Infinite);
            }
            match scaled_within(MOST_END, 3, value) {
                Some(thousandths) => Ok(End::Finite(thousandths)),
                None => Err(Fault::TooLarge),
            }
        }
        None => Ok(End::Infinite),
    }
}

/// Whether a bound's value, which is whole in thousandths, is infinite.
fn is_endless(kind: BoundKind, value: &Decimal) -> bool
    requires small { IsShortDecimal value.now }
    requires whole { pos 0 ≤ℤ (value.now.power +ℤ pos 3) }
    ensures { result ≡ is_endless kind value.now }
{
    match kind {
        BoundKind::Up | BoundKind::Ui => value.digits > 0 && is_huge(value),
        BoundKind::Lo | BoundKind::Li => value.digits < 0 && is_huge(value),
        _ => false,
    }
}

fn is_huge(value: &Decimal) -> bool
    requires small { IsShortDecimal value.now }
    requires whole { pos 0 ≤ℤ (value.now.power +ℤ pos 3) }
    ensures { result ≡ nat_le (10 ^ 23) (unsigned_abs (times_ten value.now 3)) }
{
    match times_ten(value, 3) {
        Some(thousandths) => thousandths.unsigned_abs() >= ENDLESS,
        None => true,
    }
}

/// The ends of a column behind a bound of this kind, whose value is this end.
fn with_bound(kind: BoundKind, end: End, ends: Ends) -> Ends
    ensures { (v : Maybe Number) → end ≡ end_of kind v → result ≡ with_bound kind v ends }
{
    Ends {
        integer: ends.integer || makes_integer(kind),
        semi: ends.semi || makes_semi(kind),
        low: low_set(kind, end).or(ends.low),
        high: high_set(kind, end).or(ends.high),
        falls: ends.falls || makes_fall(kind, end),
        threshold: threshold_set(kind, end).or(ends.threshold),
    }
}

fn low_set(kind: BoundKind, end: End) -> Option<End>
    ensures { (v : Maybe Number) → end ≡ end_of kind v → result ≡ low_set kind v }
{
    match kind {
        BoundKind::Lo | BoundKind::Li | BoundKind::Fx => Some(end),
        BoundKind::Fr | BoundKind::Mi => Some(End::Infinite),
        BoundKind::Bv => Some(End::Finite(0)),
        _ => None,
    }
}

fn high_set(kind: BoundKind, end: End) -> Option<End>
    ensures { (v : Maybe Number) → end ≡ end_of kind v → result ≡ high_set kind v }
{
    match kind {
        BoundKind::Up | BoundKind::Ui | BoundKind::Fx | BoundKind::Sc => Some(end),
        BoundKind::Fr | BoundKind::Pl => Some(End::Infinite),
        BoundKind::Bv => Some(End::Finite(1000)),
        _ => None,
    }
}

fn threshold_set(kind: BoundKind, end: End) -> Option<End>
    ensures { (v : Maybe Number) → end ≡ end_of kind v → result ≡ threshold_set kind v }
{
    match kind {
        BoundKind::Lo => Some(end),
        _ => None,
    }
}

/// Whether the low end becomes infinite where no bound sets it.
fn makes_fall(kind: BoundKind, end: End) -> bool
    ensures { (v : Maybe Number) → end ≡ end_of kind v → result ≡ makes_fall kind v }
{
    match kind {
        BoundKind::Up | BoundKind::Ui => is_below_zero(end),
        _ => false,
    }
}

fn is_below_zero(end: End) -> bool
    ensures { result ≡ is_below_zero end }
{
    match end {
        End::Infinite => false,
        End::Finite(thousandths) => thousandths < 0,
    }
}

/// Whether a column with these ends would be semicontinuous and integer.
fn mixes(kind: BoundKind, ends: &Ends) -> bool
    ensures { result ≡ ((makes_semi kind && ends.now.integer) || (makes_integer kind && ends.now.semi)) }
{
    makes_semi(kind) && ends.integer || makes_integer(kind) && ends.semi
}

fn makes_integer(kind: BoundKind) -> bool
    ensures { result ≡ makes_integer kind }
{
    match kind {
        BoundKind::Li | BoundKind::Ui | BoundKind::Bv => true,
        _ => false,
    }
}

fn makes_semi(kind: BoundKind) -> bool
    ensures { result ≡ makes_semi kind }
{
    match kind {
        BoundKind::Sc => true,
        _ => false,
    }
}
