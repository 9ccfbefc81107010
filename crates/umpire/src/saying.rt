//! How a text is said: it is written whole, or the call ends in another way.

ghost use Rattle.std.specs.Prelude.{◌≡◌, false};
ghost use Rattle.umpire.specs.Refusals.{refusal_text};
ghost use Rattle.um_report.specs.Verdicts.{verdict_text};
ghost use Rattle.umpire.specs.Stops.{SaidOrCut, SaidOrNot, GaveUp};

use crate::ending::Ending;
use crate::outcome::Refusal;
use crate::reading::Stop;
use crate::refusals::refusal_line;
use std::alloc::Global;
use um_model::Verdict;
use um_num::Memory;
use um_outside::{Sink, write_all};
use um_report::verdict_line;

/// Writes a text, after which the call ends so.
pub(crate) fn say<O: Sink>(out: &mut O, text: &[u8], said: Ending) -> Ending
    requires going { (O.told out.old).stopped ≡ false }
    ensures { SaidOrCut text.now said result (O.told out.old) (O.told out.new) }
{
    match write_all(out, text) {
        Ok(()) => said,
        Err(_) => Ending::Faulted,
    }
}

/// Writes the line of a verdict.
pub(crate) fn tell<O: Sink>(alloc: Global, out: &mut O, verdict: Verdict) -> Ending
    requires going { (O.told out.old).stopped ≡ false }
    ensures { SaidOrNot (verdict_text verdict) (Ending.Judged verdict) result (O.told out.old) (O.told out.new) }
{
    match verdict_line(alloc, &verdict) {
        Ok(line) => say(out, line.as_slice(), Ending::Judged(verdict)),
        Err(Memory) => Ending::WithoutMemory,
    }
}

/// Writes the line of a refusal.
pub(crate) fn refuse<O: Sink>(alloc: Global, out: &mut O, refusal: Refusal) -> Ending
    requires going { (O.told out.old).stopped ≡ false }
    ensures { SaidOrNot (refusal_text refusal) (Ending.Refused refusal) result (O.told out.old) (O.told out.new) }
{
    match refusal_line(alloc, &refusal) {
        Ok(line) => say(out, line.as_slice(), Ending::Refused(refusal)),
        Err(Memory) => Ending::WithoutMemory,
    }
}

/// Ends a call that came to nothing: a refusal is written.
pub(crate) fn give_up<O: Sink>(alloc: Global, out: &mut O, stop: Stop) -> Ending
    requires going { (O.told out.old).stopped ≡ false }
    ensures { GaveUp stop result (O.told out.old) (O.told out.new) }
{
    match stop {
        Stop::Refused(refusal) => refuse(alloc, out, refusal),
        Stop::Fault => Ending::Faulted,
        Stop::Memory => Ending::WithoutMemory,
    }
}
