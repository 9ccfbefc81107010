//! Positions of a set's members that have parts other than 0.

ghost use Rattle.std.specs.Prelude.{◌≡◌, ◌≢◌, ◌<◌, ◌≤◌, ℕ, ℤ, pos, List, length, IsTrue, ◌↔◌};
ghost use Rattle.std.specs.Option.{MatchOption};
ghost use Rattle.um_model.specs.Feasible.{part, IsNonzeroAt, SetRule};
ghost use Rattle.um_model.specs.AverageSplit.{IsFirstNonzero, IsLastNonzero};
ghost use Rattle.um_model.specs.declared.limits.TheConstants.{MOST_COLUMNS};
ghost use Rattle.um_point.specs.MemberParts.{parts_of};
ghost use Rattle.um_split.specs.Stretches.{IsStretch};

use um_model::{Member, SetKind};

fn is_nonzero(member: &Member, parts: &[i128]) -> bool
    requires { member.now.column < length parts.now }
    ensures { IsTrue result ↔ (part parts.now member.now.column ≢ pos 0) }
{
    parts[member.column as usize] != 0
}

/// The first position with a part other than 0.
pub(crate) fn first_nonzero(
    members: &[Member],
    parts: &[i128],
    start: usize,
    end: usize,
) -> Option<usize>
    requires { IsStretch members.now parts.now start end }
    ensures { MatchOption result ((position : ℕ) → part (parts_of parts.now members.now) position ≡ pos 0) (IsFirstNonzero (parts_of parts.now members.now)) }
{
    for position in start..end {
        if is_nonzero(&members[position], parts) {
            return Some(position);
        }
    }
    None
}

/// The last position with a part other than 0, where the first one has such a part.
pub(crate) fn last_nonzero(members: &[Member], parts: &[i128], first: usize, end: usize) -> usize
    requires stretch { IsStretch members.now parts.now first end }
    requires first { IsNonzeroAt (parts_of parts.now members.now) first }
    ensures last { IsLastNonzero (parts_of parts.now members.now) result }
    ensures order { first ≤ result }
    ensures inside { result < length members.now }
{
    let mut last = first;
    for position in first..end {
        if is_nonzero(&members[position], parts) {
            last = position;
        }
    }
    last
}

/// Whether the rule of this kind holds, where the nonzero parts go from the first position to the last.
pub(crate) fn rule_holds(kind: SetKind, first: usize, last: usize) -> bool
    requires { first < MOST_COLUMNS }
    ensures { (parts : List ℤ) → IsFirstNonzero parts first → IsLastNonzero parts last → (IsTrue result ↔ SetRule kind parts) }
{
    match kind {
        SetKind::S1 => last <= first,
        SetKind::S2 => last <= first + 1,
    }
}
