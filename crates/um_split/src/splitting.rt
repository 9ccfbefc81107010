//! The branch that a set takes at a point.

ghost use Rattle.std.specs.Prelude.{◌≡◌, ◌<◌, ◌≤◌, pos, ◌≤ℤ◌, length, IsNone, IfSome, ◌↔◌};
ghost use Rattle.std.specs.Option.{MatchOption};
ghost use Rattle.um_model.specs.Values.{plain_point};
ghost use Rattle.um_model.specs.Feasible.{SetRule, SetHolds};
ghost use Rattle.um_model.specs.AverageSplit.{split_at, IsAverageSplit};
ghost use Rattle.um_model.specs.declared.limits.TheConstants.{MOST_COLUMNS};
ghost use Rattle.um_point.specs.MemberParts.{parts_of};
ghost use Rattle.um_point.specs.Places.{HoldsAt};
ghost use Rattle.um_point.specs.SmallPoints.{FitsMachine};
ghost use Rattle.um_split.specs.Stretches.{IsStretch, IsSplitOf};
ghost use Rattle.um_split.specs.Intervals.{KeepsInterval};
ghost use Rattle.um_split.specs.Laws.{CutsOff};

use crate::averages::average_of;
use crate::positions::{first_nonzero, last_nonzero, rule_holds};
use um_box::NodeBox;
use um_deck::Deck;
use um_model::{Branch, Member, Point, SetKind};

/// The branch of a set of this kind, by its first nonzero position and the position of the average.
fn branch_at(kind: SetKind, set: u32, first: usize, average: usize) -> Branch
    requires first { first < MOST_COLUMNS }
    requires average { average < MOST_COLUMNS }
    ensures { result ≡ split_at kind set first average }
{
    match kind {
        SetKind::S1 => Branch::One {
            set,
            at: average as u32,
        },
        SetKind::S2 => {
            let behind = if average == first { first + 1 } else { average };
            Branch::Two {
                set,
                at: behind as u32,
            }
        }
    }
}

/// The average split of a set of this kind, by its members and their parts; `None` where its rule holds.
fn split_members(
    kind: SetKind,
    set: u32,
    members: &[Member],
    parts: &[i128],
    start: usize,
    end: usize,
) -> Option<Branch>
    requires { IsStretch members.now parts.now start end }
    ensures { MatchOption result (SetRule kind (parts_of parts.now members.now)) (IsSplitOf kind set members.now parts.now) }
{
    let first = first_nonzero(members, parts, start, end)?;
    let last = last_nonzero(members, parts, first, end);
    if rule_holds(kind, first, last) {
        return None;
    }
    let average = average_of(members, parts, first, end).last_reached(members, first, last);
    Some(branch_at(kind, set, first, average))
}

/// The average split of a set at a point that breaks its rule. `None` exactly where the rule holds. The
/// set's members are to be at least 0 at the point, and 0 outside the set's interval of the box.
pub fn split(deck: &Deck, set: u32, node: &NodeBox<'_>, point: &Point) -> Option<Branch>
    requires inside { set < length deck.now.sets }
    requires deck { node.now.deck ≡ deck.now }
    requires small { FitsMachine deck.now (plain_point point.now) }
    requires interval { KeepsInterval deck.now node.now.limits set (plain_point point.now) }
    ensures holds { IsNone result ↔ HoldsAt (SetHolds (plain_point point.now)) deck.now.sets set }
    ensures split { IfSome result (IsAverageSplit deck.now set (plain_point point.now)) }
    ensures cut { IfSome result (CutsOff deck.now node.now.limits (plain_point point.now)) }
{
    deck.known();
    node.known();
    let (first, last) = node.span(set);
    let rules = &deck.sets()[set as usize];
    split_members(
        rules.kind,
        set,
        rules.members.as_slice(),
        point.parts.as_slice(),
        first as usize,
        last as usize + 1,
    )
}
