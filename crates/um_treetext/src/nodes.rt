//! The lines of a tree's nodes.

ghost use Rattle.std.specs.Prelude.{◌≡◌, ◌∷◌, ◌++◌, [], map, decimal, OnOk};
ghost use Rattle.um_multipliers.specs.PlainMultipliers.{plain_multipliers};
ghost use Rattle.um_model.specs.AnswerValues.{plain_node, plain_what};
ghost use Rattle.um_text.specs.Texts.{behind_blanks, line_text, lines_text};
ghost use Rattle.um_treetext.specs.TreeText.{branch_words, front_text, multiplier_words, node_words, price_word, what_words};

use um_model::{Branch, Multipliers, Node, Price, Solved, What};
use um_num::Memory;
use um_text::Text;

/// The line of each node.
pub(crate) fn put_nodes(text: &mut Text, nodes: &[Node]) -> Result<(), Memory>
    ensures { OnOk result (text.new ≡ text.old ++ lines_text (map node_words (map plain_node nodes.now))) }
{
    for node in nodes {
        put_node(text, node)?;
    }
    Ok(())
}

fn put_node(text: &mut Text, node: &Node) -> Result<(), Memory>
    ensures { OnOk result (text.new ≡ text.old ++ line_text (node_words (plain_node node.now))) }
{
    put_solved(text, node.solved)?;
    put_what(text, &node.what)?;
    text.end_line()
}

/// When the node was solved, and at what cost.
fn put_solved(text: &mut Text, solved: Option<Solved>) -> Result<(), Memory>
    ensures { OnOk result (text.new ≡ text.old ++ front_text solved) }
{
    match solved {
        None => text.put(b"- -"),
        Some(solved) => {
            text.count(u128::from(solved.number))?;
            text.count_word(u128::from(solved.pivots))
        }
    }
}

/// What became of a node, each word behind a blank.
fn put_what(text: &mut Text, what: &What) -> Result<(), Memory>
    ensures { OnOk result (text.new ≡ text.old ++ behind_blanks (what_words (plain_what what.now))) }
{
    match what {
        What::Split(branch) => put_branch(text, *branch),
        What::Bounded(y) => put_multipliers(text, b"bounded", y),
        What::Empty(y) => put_multipliers(text, b"empty", y),
        What::Void(column) => put_named(text, b"void", *column),
        What::OpenLeaf(y) => put_multipliers(text, b"open", y),
    }
}

/// A word, and the number of a column or a set.
fn put_named(text: &mut Text, word: &[u8], number: u32) -> Result<(), Memory>
    ensures { OnOk result (text.new ≡ text.old ++ behind_blanks (word.now ∷ decimal number ∷ [])) }
{
    text.word(word)?;
    text.count_word(u128::from(number))
}

fn put_branch(text: &mut Text, branch: Branch) -> Result<(), Memory>
    ensures { OnOk result (text.new ≡ text.old ++ behind_blanks (branch_words branch)) }
{
    match branch {
        Branch::Int { column, below } => {
            put_named(text, b"int", column)?;
            text.whole_word(i128::from(below))
        }
        Branch::Cut { column, at } => {
            put_named(text, b"cut", column)?;
            text.whole_word(i128::from(at))
        }
        Branch::Semi { column } => put_named(text, b"semi", column),
        Branch::One { set, at } => {
            put_named(text, b"one", set)?;
            text.count_word(u128::from(at))
        }
        Branch::Two { set, at } => {
            put_named(text, b"two", set)?;
            text.count_word(u128::from(at))
        }
    }
}

/// A word, and multipliers.
fn put_multipliers(text: &mut Text, word: &[u8], y: &Multipliers) -> Result<(), Memory>
    ensures { OnOk result (text.new ≡ text.old ++ behind_blanks (word.now ∷ multiplier_words (plain_multipliers y.now))) }
{
    text.word(word)?;
    text.whole_word(y.y0)?;
    put_prices(text, y.rows.as_slice())
}

/// The row and the multiplier of each price.
fn put_prices(text: &mut Text, prices: &[Price]) -> Result<(), Memory>
    ensures { OnOk result (text.new ≡ text.old ++ behind_blanks (map price_word prices.now)) }
{
    for price in prices {
        put_price(text, price)?;
    }
    Ok(())
}

fn put_price(text: &mut Text, price: &Price) -> Result<(), Memory>
    ensures { OnOk result (text.new ≡ text.old ++ 32 ∷ price_word price.now) }
{
    text.count_word(u128::from(price.row))?;
    text.put(b":")?;
    text.whole(price.value)
}
