//! The lines of what a search did.

ghost use Rattle.std.specs.Prelude.{◌≡◌, ◌≤◌, ◌∷◌, ◌++◌, [], length, map, is_some, sum_by, count_by, decimal, OnOk};
ghost use Rattle.um_model.specs.AnswerValues.{plain_node};
ghost use Rattle.um_model.specs.declared.limits.TheConstants.{MOST_NODES};
ghost use Rattle.um_model.specs.declared.tree.Node.{Node};
ghost use Rattle.um_text.specs.Texts.{line_text, lines_text};
ghost use Rattle.um_report.specs.Reports.{is_solved, pivots_in, pivots_of, work_lines};

use um_model::{Node, Tree};
use um_num::Memory;
use um_text::Text;

/// How many nodes were solved, and with how many pivots.
pub(crate) fn put_work(text: &mut Text, tree: &Tree) -> Result<(), Memory>
    ensures { OnOk result (text.new ≡ text.old ++ lines_text (work_lines (count_by is_solved (map plain_node tree.now)) (sum_by pivots_of (map plain_node tree.now)))) }
{
    put_count(text, b"nodes", solved_in(tree) as u128)?;
    put_count(text, b"pivots", pivots_of(tree))
}

fn put_count(text: &mut Text, label: &[u8], count: u128) -> Result<(), Memory>
    ensures { OnOk result (text.new ≡ text.old ++ line_text (label.now ∷ decimal count ∷ [])) }
{
    text.put(label)?;
    text.count_word(count)?;
    text.end_line()
}

/// How many nodes of a tree were solved.
fn solved_in(tree: &Tree) -> usize
    ensures { result ≡ count_by is_solved (map plain_node tree.now) }
{
    solved_nodes(tree.nodes())
}

/// The sum of the pivots of a tree's nodes.
fn pivots_of(tree: &Tree) -> u128
    ensures { result ≡ sum_by pivots_of (map plain_node tree.now) }
{
    tree.known();
    pivots(tree.nodes())
}

/// How many nodes were solved.
fn solved_nodes(nodes: &[Node]) -> usize
    ensures { result ≡ count_by (λ (n : Node). is_some n.solved) nodes.now }
{
    nodes.iter().filter(|node| node.solved.is_some()).count()
}

/// The sum of the nodes' pivots.
fn pivots(nodes: &[Node]) -> u128
    requires { length nodes.now ≤ MOST_NODES }
    ensures { result ≡ sum_by (λ (n : Node). pivots_in n.solved) nodes.now }
{
    let mut sum = 0;
    for node in nodes {
        sum += u128::from(pivots_in(node));
    }
    sum
}

/// The pivots of a node; none where it was not solved.
fn pivots_in(node: &Node) -> u64
    ensures { result ≡ pivots_in node.now.solved }
{
    match node.solved {
        Some(solved) => solved.pivots,
        None => 0,
    }
}
