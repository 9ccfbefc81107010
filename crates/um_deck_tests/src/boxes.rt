//! Boxes of the deck of the script. They were worked out by hand.

use crate::script::deck_of;
use std::test::Fail;
use um_box::{Branch, NodeBox, Side};

/// The ends of x, y, w and q, in thousandths.
type Ends = &'static [(i64, i64)];

const ROOT: Ends = &[(0, 4_000), (0, 2_000), (0, 1_000), (0, 3_000)];

/// Branches of the root, each with a side and the ends of the child there.
const CHILDREN: [(Branch, Side, Ends); 3] = [
    (
        Branch::Int {
            column: 1,
            below: 0,
        },
        Side::Right,
        &[(0, 4_000), (1_000, 2_000), (0, 1_000), (0, 3_000)],
    ),
    (
        Branch::One { set: 0, at: 0 },
        Side::Left,
        &[(0, 0), (0, 2_000), (0, 1_000), (0, 3_000)],
    ),
    (
        Branch::Cut {
            column: 3,
            at: 1_500,
        },
        Side::Left,
        &[(0, 4_000), (0, 2_000), (0, 1_000), (0, 1_500)],
    ),
];

/// Whether these are the ends of the box; the last column, v, has none.
fn are_ends(node: &NodeBox<'_>, want: &[(i64, i64)]) -> bool {
    if node.deck().columns().len() != 5 || want.len() != 4 {
        return false;
    }
    for column in 0..4u32 {
        let (low, high) = want[column as usize];
        if node.ends(column) != (Some(low), Some(high)) {
            return false;
        }
    }
    node.ends(4) == (None, None)
}

#[test]
fn boxes(rt: HostRuntime) -> Result<(), Fail> {
    let deck = deck_of(rt.alloc()).expect(&rt, "a deck");
    let mut node = NodeBox::root(rt.alloc(), &deck)?;
    assert!(rt; are_ends(&node, ROOT));
    for (branch, side, want) in CHILDREN {
        assert!(rt; node.fits(&branch), "{want:?}");
        let child = node.child(rt.alloc(), &branch, side)?;
        assert!(rt; are_ends(&child, want), "{want:?}");
        let undo = node.enter(&branch, side);
        assert!(rt; are_ends(&node, want), "{want:?}");
        node.leave(undo);
        assert!(rt; are_ends(&node, ROOT), "{want:?}");
    }
    Ok(())
}
