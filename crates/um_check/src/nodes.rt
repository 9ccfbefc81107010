//! The nodes of a tree, in preorder.

ghost use Rattle.std.specs.Prelude.{◌≡◌, ◌≢◌, ◌+◌, ◌<◌, ◌≤◌, [], ◌∷◌, ◌↔◌, length, map, All, IsTrue, IfOk, Some, None};
ghost use Rattle.um_model.specs.Accepted.{NodesVerdict, by_node};
ghost use Rattle.um_model.specs.AnswerValues.{AnswerValue, Split, plain_answer, plain_node, plain_what};
ghost use Rattle.um_model.specs.Boxes.{root};
ghost use Rattle.um_model.specs.Checkable.{IsCheckableWhat};
ghost use Rattle.um_model.specs.declared.tree.Node.{Node};
ghost use Rattle.um_model.specs.declared.limits.TheConstants.{MOST_NODES};
ghost use Rattle.um_check.specs.Judging.{IsTolerance, IsVisited, FromBound, OnBound};
ghost use Rattle.um_check.specs.Walks.{start_of};

use crate::bound::{LeastBound, is_same};
use crate::leaf::on_leaf;
use crate::walk::Walk;
use um_model::{Answer, Branch, Node, Reason, Verdict, What};
use um_num::Frac;

/// The verdict on the nodes of a tree, and on the bound that their leaves give.
pub fn on_nodes(walk: &mut Walk<'_>, answer: &Answer, nodes: &[Node]) -> Verdict
    requires start { walk.old ≡ start_of walk.old.deck }
    requires tolerance { IsTolerance answer.now.tolerance }
    requires nodes { map plain_node nodes.now ≡ (plain_answer answer.now).tree }
    requires most { length nodes.now ≤ MOST_NODES }
    requires checkable { All (λ (n : Node). IsCheckableWhat walk.old.deck (plain_what n.what)) nodes.now }
    ensures verdict { NodesVerdict walk.old.deck (plain_answer answer.now) (root walk.old.deck ∷ []) 0 (plain_answer answer.now).tree (FromBound walk.old.deck (plain_answer answer.now)) result }
    ensures deck { walk.new.deck ≡ walk.old.deck }
{
    let mut least = LeastBound::Nothing;
    for (place, node) in nodes.iter().enumerate() {
        if !walk.waits() {
            return no_at(place, Reason::Shape);
        }
        match visit(walk, answer, &node.what) {
            Ok(bound) => least = least.join(bound),
            Err(reason) => return no_at(place, reason),
        }
    }
    if walk.waits() {
        return no_at(nodes.len(), Reason::Shape);
    }
    on_bound(answer, least)
}

/// A reason against the node at this place.
fn no_at(place: usize, reason: Reason) -> Verdict
    requires { place ≤ MOST_NODES }
    ensures { result ≡ by_node place reason }
{
    Verdict::No {
        node: Some(place as u32),
        reason,
    }
}

/// The verdict where the nodes hold, by what their leaves say of the bound.
fn on_bound(answer: &Answer, least: LeastBound) -> Verdict
    ensures { OnBound (plain_answer answer.now) least result }
{
    if !is_stated(answer, least.told()) {
        return Verdict::No {
            node: None,
            reason: Reason::BoundWord,
        };
    }
    Verdict::Yes
}

/// Whether the answer states this bound.
fn is_stated(answer: &Answer, bound: Option<Frac>) -> bool
    ensures { IsTrue result ↔ (answer.now.bound ≡ bound) }
{
    match (&answer.bound, bound) {
        (Some(stated), Some(bound)) => is_same(stated, &bound),
        (None, None) => true,
        _ => false,
    }
}

/// Looks at the node of the box that waits first, and goes on. Answers what the node says of the bound,
/// or the first reason against it.
fn visit(walk: &mut Walk<'_>, answer: &Answer, what: &What) -> Result<LeastBound, Reason>
    requires waits { walk.old.boxes ≢ [] }
    requires room { walk.old.depth < MOST_NODES }
    requires tolerance { IsTolerance answer.now.tolerance }
    requires checkable { IsCheckableWhat walk.old.deck (plain_what what.now) }
    ensures visited { IsVisited walk.old.deck (plain_answer answer.now) (plain_what what.now) walk.old.boxes walk.new.boxes result }
    ensures deck { walk.new.deck ≡ walk.old.deck }
    ensures depth { walk.new.depth ≤ walk.old.depth + 1 }
{
    match what {
        What::Split(branch) => on_split(walk, branch),
        leaf => match on_leaf(walk.node(), answer, leaf) {
            Ok(bound) => {
                walk.go_on();
                Ok(bound)
            }
            Err(reason) => Err(reason),
        },
    }
}

/// Cuts the box that waits first.
fn on_split(walk: &mut Walk<'_>, branch: &Branch) -> Result<LeastBound, Reason>
    requires waits { walk.old.boxes ≢ [] }
    requires room { walk.old.depth < MOST_NODES }
    ensures visited { (a : AnswerValue) → IsVisited walk.old.deck a (Split branch.now) walk.old.boxes walk.new.boxes result }
    ensures deck { walk.new.deck ≡ walk.old.deck }
    ensures depth { walk.new.depth ≤ walk.old.depth + 1 }
{
    if !walk.node().fits(branch) {
        return Err(Reason::Branch);
    }
    walk.split(branch);
    Ok(LeastBound::Nothing)
}
