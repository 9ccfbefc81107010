//! The line of a verdict.

ghost use Rattle.std.specs.Prelude.{◌≡◌, ◌∷◌, ◌++◌, IfOk, OnOk};
ghost use Rattle.um_text.specs.Texts.{line_text};
ghost use Rattle.um_report.specs.Verdicts.{place_word, reason_word, verdict_text};

use std::alloc::Global;
use um_model::{Reason, Verdict};
use um_num::{List, Memory};
use um_text::Text;

/// The line of a verdict: `yes`, or `no`, the node's place or `-`, and the reason.
pub fn verdict_line(alloc: Global, verdict: &Verdict) -> Result<List<u8>, Memory>
    ensures { IfOk result (λ line. line.items ≡ verdict_text verdict.now) }
{
    let mut text = Text::new(alloc);
    put_verdict(&mut text, *verdict)?;
    Ok(text.into_bytes())
}

fn put_verdict(text: &mut Text, verdict: Verdict) -> Result<(), Memory>
    ensures { OnOk result (text.new ≡ text.old ++ verdict_text verdict) }
{
    match verdict {
        Verdict::Yes => text.put(b"yes\n"),
        Verdict::No { node, reason } => {
            text.put(b"no")?;
            put_place(text, node)?;
            text.word(reason_word(reason))?;
            text.end_line()
        }
    }
}

/// The node's place behind a blank, or a hyphen.
fn put_place(text: &mut Text, place: Option<u32>) -> Result<(), Memory>
    ensures { OnOk result (text.new ≡ text.old ++ 32 ∷ place_word place) }
{
    match place {
        None => text.word(b"-"),
        Some(place) => text.count_word(u128::from(place)),
    }
}

fn reason_word(reason: Reason) -> &'static [u8]
    ensures { result.now ≡ reason_word reason }
{
    match reason {
        Reason::Tolerance => b"Tolerance",
        Reason::Fields => b"Fields",
        Reason::Wide => b"Wide",
        Reason::Infeasible => b"Infeasible",
        Reason::Objective => b"Objective",
        Reason::Ray => b"Ray",
        Reason::Shape => b"Shape",
        Reason::Branch => b"Branch",
        Reason::Sign => b"Sign",
        Reason::Bound => b"Bound",
        Reason::NotEmpty => b"NotEmpty",
        Reason::NotVoid => b"NotVoid",
        Reason::OpenLeaf => b"OpenLeaf",
        Reason::BoundWord => b"BoundWord",
    }
}
