//! Making the box of a node: the root's box, cut along the way down to the node.

ghost use Rattle.std.specs.Prelude.{◌≡◌, ◌<◌, length, IfOk};
ghost use Rattle.um_model.specs.Boxes.{root};
ghost use Rattle.um_cover.specs.Sites.{way, box_at, box_along};
ghost use Rattle.um_cover.specs.Descents.{SplitsFit, FitAlong};

use std::alloc::Global;
use um_box::NodeBox;
use um_deck::Deck;
use um_num::{List, Memory};
use um_tree::{Growth, Origin};

/// The box of a node. The error is want of memory.
pub fn box_of<'d>(
    alloc: Global,
    deck: &'d Deck,
    growth: &Growth,
    id: u32,
) -> Result<NodeBox<'d>, Memory>
    requires inside { id < length growth.now.nodes }
    requires fits { SplitsFit deck.now growth.now }
    ensures { IfOk result (λ b. b ≡ record { deck = deck.now; limits = box_at deck.now growth.now id }) }
{
    growth.known();
    let steps = way_up(alloc, growth, id)?;
    let mut node = NodeBox::root(alloc, deck)?;
    go_down(&mut node, steps.as_slice());
    Ok(node)
}

/// Where the node came from, where its parent came from, and so on up to the root.
fn way_up(alloc: Global, growth: &Growth, id: u32) -> Result<List<Origin>, Memory>
    requires { id < length growth.now.nodes }
    ensures { IfOk result (λ steps. steps.items ≡ way growth.now id) }
{
    growth.known();
    let mut steps = List::new(alloc);
    let mut at = id;
    'up: while let Some(origin) = growth.origin(at) {
        steps.push(origin)?;
        at = origin.parent;
    }
    Ok(steps)
}

/// Cuts the root's box along the steps, the last of which leads down from the root.
fn go_down(node: &mut NodeBox<'_>, steps: &[Origin])
    requires fits { FitAlong node.old.deck steps.now }
    requires root { node.old.limits ≡ root node.old.deck }
    ensures { node.new ≡ record { deck = node.old.deck; limits = box_along node.old.deck steps.now } }
{
    let mut left = steps.len();
    'down: while left > 0 {
        left -= 1;
        let step = steps[left];
        let _ = node.enter(&step.branch, step.side);
    }
}
