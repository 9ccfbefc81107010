//! Ordered sets of a deck at a point.

ghost use Rattle.std.specs.Prelude.{◌≡◌, ◌≢◌, ◌<◌, ◌≤◌, ℕ, pos, length, All, IsTrue, ◌↔◌};
ghost use Rattle.um_model.specs.Values.{plain_point};
ghost use Rattle.um_model.specs.Feasible.{part, IsNonzeroAt, SetRule, SetHolds};
ghost use Rattle.um_model.specs.declared.deck.Member.{Member};
ghost use Rattle.um_point.specs.MemberParts.{parts_of};
ghost use Rattle.um_point.specs.Places.{HoldsAt};
ghost use Rattle.um_point.specs.SmallPoints.{FitsMachine};

use um_deck::Deck;
use um_model::{Member, Point, SetKind};

fn is_nonzero(member: &Member, parts: &[i128]) -> bool
    requires { member.now.column < length parts.now }
    ensures { IsTrue result ↔ (part parts.now member.now.column ≢ pos 0) }
{
    parts[member.column as usize] != 0
}

/// How many members stand before the first with a part other than 0.
fn leading_zeros(members: &[Member], parts: &[i128]) -> usize
    requires { All (λ (m : Member). m.column < length parts.now) members.now }
    ensures inside { result ≤ length members.now }
    ensures before { (k : ℕ) → k < result → part (parts_of parts.now members.now) k ≡ pos 0 }
    ensures nonzero { result < length members.now → IsNonzeroAt (parts_of parts.now members.now) result }
{
    for (position, member) in members.iter().enumerate() {
        if is_nonzero(member, parts) {
            return position;
        }
    }
    members.len()
}

/// Whether the members from this position on have parts of 0.
fn is_zero_from(members: &[Member], parts: &[i128], start: usize) -> bool
    requires { All (λ (m : Member). m.column < length parts.now) members.now }
    ensures { IsTrue result ↔ ((k : ℕ) → start ≤ k → part (parts_of parts.now members.now) k ≡ pos 0) }
{
    for position in start..members.len() {
        if is_nonzero(&members[position], parts) {
            return false;
        }
    }
    true
}

/// Whether the nonzero parts are as this kind of set allows.
fn rule_holds(kind: SetKind, members: &[Member], parts: &[i128]) -> bool
    requires { All (λ (m : Member). m.column < length parts.now) members.now }
    ensures { IsTrue result ↔ SetRule kind (parts_of parts.now members.now) }
{
    let first = leading_zeros(members, parts);
    match kind {
        SetKind::S1 => is_zero_from(members, parts, first + 1),
        SetKind::S2 => is_zero_from(members, parts, first + 2),
    }
}

/// Whether the set's rule holds.
pub fn set_holds(deck: &Deck, point: &Point, set: u32) -> bool
    requires inside { set < length deck.now.sets }
    requires small { FitsMachine deck.now (plain_point point.now) }
    ensures { IsTrue result ↔ HoldsAt (SetHolds (plain_point point.now)) deck.now.sets set }
{
    deck.known();
    let rules = &deck.sets()[set as usize];
    rule_holds(rules.kind, rules.members.as_slice(), point.parts.as_slice())
}
