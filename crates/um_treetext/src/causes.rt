//! The words of a cause.

ghost use Rattle.std.specs.Prelude.{◌≡◌, ◌++◌, OnOk};
ghost use Rattle.um_text.specs.Texts.{behind_blanks};
ghost use Rattle.um_treetext.specs.TreeText.{place_words, step_words, why_words};

use crate::words::{cause_word, op_word};
use um_model::Why;
use um_num::{Memory, Wide};
use um_text::Text;

/// The words of a cause, each behind a blank.
pub(crate) fn put_cause(text: &mut Text, why: Option<Why>) -> Result<(), Memory>
    ensures { OnOk result (text.new ≡ text.old ++ behind_blanks (why_words why)) }
{
    text.word(cause_word(why))?;
    put_place(text, why)
}

/// Where it was, each word behind a blank.
fn put_place(text: &mut Text, why: Option<Why>) -> Result<(), Memory>
    ensures { OnOk result (text.new ≡ text.old ++ behind_blanks (place_words why)) }
{
    let Some(why) = why else {
        return Ok(());
    };
    match why {
        Why::Points { column } => text.count_word(u128::from(column)),
        Why::Grid { number } | Why::Leaf { number } | Why::Vertex { number } => {
            text.count_word(u128::from(number))
        }
        Why::Pivot { number, step, wide } | Why::Value { number, step, wide } => {
            put_step(text, number, step, wide)
        }
        Why::Nodes | Why::Pivots | Why::Ray => Ok(()),
    }
}

/// The number of a node, the step, and the operation that left the range.
fn put_step(text: &mut Text, number: u32, step: u64, wide: Wide) -> Result<(), Memory>
    ensures { OnOk result (text.new ≡ text.old ++ behind_blanks (step_words number step wide)) }
{
    text.count_word(u128::from(number))?;
    text.count_word(u128::from(step))?;
    text.word(op_word(wide.op))?;
    text.whole_word(wide.left)?;
    text.whole_word(wide.right)
}
