//! The columns of a deck, but for their names.

ghost use Rattle.std.specs.Prelude.{◌≡◌, ◌<◌, length, map, flat_map, All, IfOk, None};
ghost use Rattle.std.specs.List.{enumerate_from};
ghost use Rattle.um_statements.specs.CallRules.{first_fault, has_kept_arc};
ghost use Rattle.um_statements.specs.Made.{sided_rows, low_end, high_end, threshold, kind_of, finite};
ghost use Rattle.um_statements.specs.DeckRules.{column_rules, is_member, is_below_zero_or_none, are_crossed};
ghost use Rattle.um_made.specs.ColumnWords.{rules_of_column, AreMarks};

use crate::sides::is_above;
use crate::told::Told;
use um_model::limits::MOST_ARC_END;
use um_model::{Entry, Kind};
use um_num::List;
use um_statements::{End, Ends, Fault};

/// A column of a deck but for its name.
#[derive(Debug, Drop)]
pub struct ColumnLeft {
    pub kind: Kind,
    /// In thousandths; `None` is minus infinity.
    pub low: Option<i64>,
    /// In thousandths; `None` is infinity.
    pub high: Option<i64>,
    /// As for minimising, scaled by the objective.
    pub cost: i64,
    /// By rising row.
    pub entries: List<Entry>,
}

impl Told {
    ghost use Rattle.um_statements.specs.WellSaid.{IsSaid};
    ghost use Rattle.um_made.specs.Parts.{said};

    /// The first rule on a column that is broken.
    pub fn column_fault(&self, members: &[bool], arcs: &[bool]) -> Option<Fault>
        requires well { IsSaid (said self.now) }
        requires members { AreMarks (is_member (said self.now)) (length self.now.columns.items) members.now }
        requires arcs { AreMarks (has_kept_arc (said self.now)) (length self.now.columns.items) arcs.now }
        ensures { result ≡ first_fault (flat_map (column_rules (said self.now)) (enumerate_from 0 (said self.now).columns)) }
    {
        for (j, column) in self.columns.iter().enumerate() {
            match fault_of(members[j], arcs[j], &column.1.ends) {
                Some(fault) => return Some(fault),
                None => {}
            }
        }
        None
    }
}

/// The first rule that a column breaks, a member of a set or not, with an arc or not.
fn fault_of(member: bool, arc: bool, ends: &Ends) -> Option<Fault>
    ensures { result ≡ first_fault (rules_of_column member arc ends.now) }
{
    let low = low_end(ends);
    let high = high_end(ends);
    let threshold = threshold(ends);
    if arc && (is_above(MOST_ARC_END, low) || is_above(MOST_ARC_END, high)) {
        return Some(Fault::TooLarge);
    }
    if ends.semi && is_below_zero_or_none(threshold) {
        return Some(Fault::SemiLower);
    }
    if are_crossed(low, high) || ends.semi && are_crossed(threshold, high) {
        return Some(Fault::CrossedBounds);
    }
    if (ends.integer || ends.semi || member || arc) && (low.is_none() || high.is_none()) {
        return Some(Fault::NotFinite);
    }
    if member && is_above(0, low) {
        return Some(Fault::LowerNotZero);
    }
    if arc && (member || ends.semi) {
        return Some(Fault::ArcInSet);
    }
    None
}

/// The low end: 0 where no bound set it, but infinite where a high end was put below 0.
pub fn low_end(ends: &Ends) -> Option<i64>
    ensures { result ≡ low_end ends.now }
{
    if ends.semi {
        return Some(0);
    }
    match ends.low {
        Some(end) => finite(end),
        None if ends.falls => None,
        None => Some(0),
    }
}

pub fn high_end(ends: &Ends) -> Option<i64>
    ensures { result ≡ high_end ends.now }
{
    finite(ends.high?)
}

/// The threshold of a semicontinuous column; `None` is minus infinity.
fn threshold(ends: &Ends) -> Option<i64>
    ensures { result ≡ threshold ends.now }
{
    match ends.threshold {
        Some(end) => finite(end),
        None => Some(0),
    }
}

fn finite(end: End) -> Option<i64>
    ensures { result ≡ finite end }
{
    match end {
        End::Finite(end) => Some(end),
        End::Infinite => None,
    }
}

pub fn kind_of(ends: &Ends) -> Kind
    ensures { result ≡ kind_of ends.now }
{
    if ends.semi {
        return Kind::Semi(threshold(ends).unwrap_or(0));
    }
    if ends.integer {
        Kind::Integer
    } else {
        Kind::Continuous
    }
}

/// Both are there, and the first is greater.
fn are_crossed(low: Option<i64>, high: Option<i64>) -> bool
    ensures { result ≡ are_crossed low high }
{
    match (low, high) {
        (Some(low), Some(high)) => high < low,
        _ => false,
    }
}

fn is_below_zero_or_none(number: Option<i64>) -> bool
    ensures { result ≡ is_below_zero_or_none number }
{
    match number {
        Some(number) => number < 0,
        None => true,
    }
}
