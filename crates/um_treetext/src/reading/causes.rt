//! The line of the cause.

ghost use Rattle.std.specs.Prelude.{◌≡◌};
ghost use Rattle.um_treetext.specs.Calls.{Takes};
ghost use Rattle.um_treetext.specs.FrontLines.{cause_called, cause_said, op_said, step_place_said, why_line, wide_said};

use crate::fault::TreeWord;
use crate::reading::numbers::{index, steps, whole_number};
use crate::reading::words::LineWords;
use um_model::Why;
use um_num::{Op, Wide};

/// The first word of a cause.
#[derive(Clone, Copy, PartialEq, Eq, Debug)]
pub enum CauseWord {
    None,
    Nodes,
    Pivots,
    Points,
    Grid,
    Pivot,
    Value,
    Leaf,
    Vertex,
    Ray,
}

pub fn read_why(mut words: LineWords<'_>) -> Result<Option<Why>, TreeWord>
    ensures { result ≡ why_line words.entry }
{
    words.fixed(b"WHY")?;
    let cause = cause_called(words.word()?)?;
    let why = read_cause(&mut words, cause)?;
    words.end()?;
    Ok(why)
}

/// What stands behind a cause's first word.
fn read_cause(words: &mut LineWords<'_>, cause: CauseWord) -> Result<Option<Why>, TreeWord>
    ensures { Takes (cause_said cause words.old) result words.new }
{
    match cause {
        CauseWord::None => Ok(None),
        CauseWord::Nodes => Ok(Some(Why::Nodes)),
        CauseWord::Pivots => Ok(Some(Why::Pivots)),
        CauseWord::Ray => Ok(Some(Why::Ray)),
        CauseWord::Pivot => {
            let (number, step) = read_place(words)?;
            let wide = read_wide(words)?;
            Ok(Some(Why::Pivot { number, step, wide }))
        }
        CauseWord::Value => {
            let (number, step) = read_place(words)?;
            let wide = read_wide(words)?;
            Ok(Some(Why::Value { number, step, wide }))
        }
        CauseWord::Points => {
            let column = index(words.word()?)?;
            Ok(Some(Why::Points { column }))
        }
        CauseWord::Grid => {
            let number = index(words.word()?)?;
            Ok(Some(Why::Grid { number }))
        }
        CauseWord::Leaf => {
            let number = index(words.word()?)?;
            Ok(Some(Why::Leaf { number }))
        }
        CauseWord::Vertex => {
            let number = index(words.word()?)?;
            Ok(Some(Why::Vertex { number }))
        }
    }
}

/// The number of a node, and the step.
fn read_place(words: &mut LineWords<'_>) -> Result<(u32, u64), TreeWord>
    ensures { Takes (step_place_said words.old) result words.new }
{
    let number = index(words.word()?)?;
    let step = steps(words.word()?)?;
    Ok((number, step))
}

fn cause_called(word: &[u8]) -> Result<CauseWord, TreeWord>
    ensures { result ≡ cause_called word.now }
{
    if word == b"none".as_slice() {
        Ok(CauseWord::None)
    } else if word == b"nodes".as_slice() {
        Ok(CauseWord::Nodes)
    } else if word == b"pivots".as_slice() {
        Ok(CauseWord::Pivots)
    } else if word == b"points".as_slice() {
        Ok(CauseWord::Points)
    } else if word == b"grid".as_slice() {
        Ok(CauseWord::Grid)
    } else if word == b"pivot".as_slice() {
        Ok(CauseWord::Pivot)
    } else if word == b"value".as_slice() {
        Ok(CauseWord::Value)
    } else if word == b"leaf".as_slice() {
        Ok(CauseWord::Leaf)
    } else if word == b"vertex".as_slice() {
        Ok(CauseWord::Vertex)
    } else if word == b"ray".as_slice() {
        Ok(CauseWord::Ray)
    } else {
        Err(TreeWord::BadWord)
    }
}

/// An operation and its two numbers.
fn read_wide(words: &mut LineWords<'_>) -> Result<Wide, TreeWord>
    ensures { Takes (wide_said words.old) result words.new }
{
    let op = op_called(words.word()?)?;
    let left = whole_number(words.word()?)?;
    let right = whole_number(words.word()?)?;
    Ok(Wide { op, left, right })
}

fn op_called(word: &[u8]) -> Result<Op, TreeWord>
    ensures { result ≡ op_said word.now }
{
    if word == b"add".as_slice() {
        Ok(Op::Add)
    } else if word == b"sub".as_slice() {
        Ok(Op::Sub)
    } else if word == b"mul".as_slice() {
        Ok(Op::Mul)
    } else {
        Err(TreeWord::BadWord)
    }
}
