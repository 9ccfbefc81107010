//! The reader: the answer that a text says, or the first rule that it breaks.

ghost use Rattle.std.specs.Prelude.{◌≡◌, ◌<◌, ◌≤◌, ◌++◌, ◌∷◌, [], codes, length, map, IfOk, MatchResult, Ok, Err};
ghost use Rattle.um_model.specs.AnswerValues.{plain_answer, plain_node};
ghost use Rattle.um_model.specs.Checkable.{IsCheckable};
ghost use Rattle.um_model.specs.declared.limits.TheConstants.{MOST_NODES};
ghost use Rattle.um_treetext.specs.Calls.{Gives, ReadsAs};
ghost use Rattle.um_treetext.specs.Reading.{end_read, nodes_read, tree_read};
ghost use Rattle.um_treetext.specs.Words.{ended, labelled};

mod causes;
mod front;
mod lines;
mod nodes;
mod numbers;
mod parts;
mod values;
mod words;

use crate::fault::{TreeFault, TreeWord};
use crate::reading::front::read_front;
use crate::reading::lines::{TextLines, at_line};
use crate::reading::nodes::read_node;
use crate::reading::values::read_values;
use crate::reading::words::LineWords;
use std::alloc::Global;
use um_deck::Deck;
use um_model::{Answer, Node, Tree, TreeFull};

/// How many lines stand before the first node.
const BEFORE_NODES: u32 = 10;

/// The answer to this deck of which these bytes are the text.
///
/// Other bytes are refused with the line and the fault of the first rule that they break; `Memory` says that
/// no memory was found, and its line how far the text was read. The bytes are not copied.
pub fn read(alloc: Global, deck: &Deck, bytes: &[u8]) -> Result<Answer, TreeFault>
    ensures answer { Gives plain_answer result (tree_read deck.now bytes.now) }
    ensures checkable { IfOk result (λ a. IsCheckable deck.now (plain_answer a)) }
{
    let mut lines = TextLines::of(bytes);
    let front = read_front(&mut lines, deck)?;
    let values = read_values(alloc, &mut lines, deck)?;
    let tree = read_nodes(alloc, &mut lines, deck, values.nodes)?;
    read_end(&mut lines, values.nodes + BEFORE_NODES)?;
    Ok(Answer {
        kind: front.kind,
        why: front.why,
        tolerance: front.tolerance,
        objective: values.objective,
        bound: values.bound,
        point: values.point,
        ray: values.ray,
        tree,
    })
}

/// This many nodes, each on a line.
fn read_nodes(
    alloc: Global,
    lines: &mut TextLines<'_>,
    deck: &Deck,
    count: u32,
) -> Result<Tree, TreeFault>
    requires { count ≤ MOST_NODES }
    ensures { ReadsAs (map plain_node) (nodes_read deck.now count 10 lines.old) result lines.new }
{
    let mut tree = Tree::new(alloc);
    for i in 0..count {
        let before = i + BEFORE_NODES;
        let node = at_line(before + 1, read_node(alloc, lines.next(before)?, deck))?;
        at_line(before + 1, push(&mut tree, node))?;
    }
    Ok(tree)
}

/// Appends a node to a tree that is not full.
fn push(tree: &mut Tree, node: Node) -> Result<(), TreeWord>
    requires { length tree.old < MOST_NODES }
    ensures { MatchResult result (λ _. tree.new ≡ tree.old ++ node ∷ []) (λ fault. fault ≡ TreeWord.Memory) }
{
    match tree.push(node) {
        Ok(()) => Ok(()),
        Err(TreeFull::Memory) => Err(TreeWord::Memory),
        Err(TreeFull::Full) => unreachable!(),
    }
}

/// The line `END`, and no byte behind it.
fn read_end(lines: &mut TextLines<'_>, before: u32) -> Result<(), TreeFault>
    requires { before ≤ 1000000 }
    ensures { MatchResult result (λ _. end_read before lines.old ≡ Ok lines.new) (λ f. end_read before lines.old ≡ Err (f.line, f.fault)) }
{
    at_line(before + 1, end_words(lines.next(before)?))?;
    if lines.is_at_end() {
        Ok(())
    } else {
        Err(TreeFault {
            line: before + 2,
            fault: TreeWord::BadWord,
        })
    }
}

fn end_words(mut words: LineWords<'_>) -> Result<(), TreeWord>
    ensures { MatchResult result (λ _. labelled (codes "END") ended words.entry ≡ Ok []) (λ fault. labelled (codes "END") ended words.entry ≡ Err fault) }
{
    words.fixed(b"END")?;
    words.end()
}
