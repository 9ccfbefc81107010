//! The fixed words of a tree's text.

ghost use Rattle.std.specs.Prelude.{◌≡◌};
ghost use Rattle.um_treetext.specs.TreeText.{cause_word, kind_word, name_word, op_word};

use um_model::{AnswerKind, Why};
use um_num::Op;

/// The word of a deck's name; a deck without a name has a hyphen in its place.
pub fn name_word(name: &[u8]) -> &[u8]
    ensures { result.now ≡ name_word name.now }
{
    if name.is_empty() { b"-" } else { name }
}

/// The first word of a cause: why a search stopped, or that it did not.
pub fn cause_word(why: Option<Why>) -> &'static [u8]
    ensures { result.now ≡ cause_word why }
{
    match why {
        None => b"none",
        Some(Why::Nodes) => b"nodes",
        Some(Why::Pivots) => b"pivots",
        Some(Why::Points { .. }) => b"points",
        Some(Why::Grid { .. }) => b"grid",
        Some(Why::Pivot { .. }) => b"pivot",
        Some(Why::Value { .. }) => b"value",
        Some(Why::Leaf { .. }) => b"leaf",
        Some(Why::Vertex { .. }) => b"vertex",
        Some(Why::Ray) => b"ray",
    }
}

pub(crate) fn kind_word(kind: AnswerKind) -> &'static [u8]
    ensures { result.now ≡ kind_word kind }
{
    match kind {
        AnswerKind::Optimal => b"optimal",
        AnswerKind::Infeasible => b"infeasible",
        AnswerKind::Unbounded => b"unbounded",
        AnswerKind::Limit => b"limit",
        AnswerKind::Overflow => b"overflow",
    }
}

pub(crate) fn op_word(op: Op) -> &'static [u8]
    ensures { result.now ≡ op_word op }
{
    match op {
        Op::Add => b"add",
        Op::Sub => b"sub",
        Op::Mul => b"mul",
    }
}
