//! Which node comes next.

ghost use Rattle.std.specs.Prelude.{◌≡◌, ◌+◌, ◌<◌, pos, [], length, IsTrue, IsFalse, ◌↔◌, MatchOption};
ghost use Rattle.std.specs.Ordering.{MatchOrdering};
ghost use Rattle.um_nodes.specs.Keys.{IsKey, AreKeys, Allows, Leads, Ties, Precedes};
ghost use Rattle.um_nodes.specs.Taking.{IsFirstBelow};

use crate::open_nodes::{Key, OpenNode};
use std::cmp::Ordering;
use um_num::compare;

/// Whether the key has no bound.
fn is_endless(key: &Key) -> bool
    ensures { IsTrue result ↔ (key.now.y0 ≡ pos 0) }
{
    key.y0 == 0
}

/// How the bounds of two keys stand. A key without a bound comes before all that have one.
fn order(a: &Key, b: &Key) -> Ordering
    requires left { IsKey a.now }
    requires right { IsKey b.now }
    ensures { MatchOrdering result (Leads a.now b.now) (Ties a.now b.now) (Leads b.now a.now) }
{
    match (is_endless(a), is_endless(b)) {
        (true, true) => Ordering::Equal,
        (true, false) => Ordering::Less,
        (false, true) => Ordering::Greater,
        (false, false) => compare(a.value, a.y0, b.value, b.y0),
    }
}

/// Whether the first of two keys comes before the second; else the second may come first.
fn comes_before(a: &Key, b: &Key) -> bool
    requires left { IsKey a.now }
    requires right { IsKey b.now }
    ensures yes { IsTrue result → Precedes a.now b.now }
    ensures no { IsFalse result → Precedes b.now a.now }
{
    match order(a, b) {
        Ordering::Less => true,
        Ordering::Equal => a.id < b.id,
        Ordering::Greater => false,
    }
}

/// The place of the node that comes first of those up to `place`, where `first` comes first of those before it.
fn with_place(nodes: &[OpenNode], first: usize, place: usize) -> usize
    requires keys { AreKeys nodes.now }
    requires inside { place < length nodes.now }
    requires first { IsFirstBelow nodes.now place first }
    ensures { IsFirstBelow nodes.now (place + 1) result }
{
    if comes_before(&nodes[place].key, &nodes[first].key) {
        place
    } else {
        first
    }
}

/// The place of the node that comes first. `None` exactly where there is none.
pub(crate) fn first_of(nodes: &[OpenNode]) -> Option<usize>
    requires { AreKeys nodes.now }
    ensures { MatchOption result (nodes.now ≡ []) (IsFirstBelow nodes.now (length nodes.now)) }
{
    if nodes.is_empty() {
        return None;
    }
    let mut first = 0;
    for place in 1..nodes.len() {
        first = with_place(nodes, first, place);
    }
    Some(first)
}
