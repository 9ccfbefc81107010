//! The top call.

ghost use Rattle.std.specs.Prelude.{◌≡◌, false, map, string_bytes, Ok};
ghost use Rattle.um_outside.specs.Scenes.{Idle};
ghost use Rattle.um_words.specs.Ranges.{IsInRange};
ghost use Rattle.umpire.specs.Runs.{by_job, Ran, RanAs};

use crate::commands::{check, print, solve};
use crate::ending::Ending;
use crate::outcome::Outcome;
use crate::reading::words_stop;
use crate::saying::give_up;
use std::alloc::Global;
use um_outside::{Desk, Sink};
use um_words::{Job, command};

/// Does what the words, behind the program's name, ask for.
pub fn run<D: Desk, O: Sink>(alloc: Global, words: &[String], desk: &mut D, out: &mut O) -> Outcome
    requires idle { (D.scene desk.old).mode ≡ Idle }
    requires going { (D.scene desk.old).stopped ≡ false }
    requires out_going { (O.told out.old).stopped ≡ false }
    ensures { Ran (map string_bytes words.now) result (D.scene desk.old) (D.scene desk.new) (O.told out.old) (O.told out.new) }
{
    let ending = call(alloc, words, desk, out);
    ending.outcome()
}

/// Does the job that the words ask for, or refuses them.
fn call<D: Desk, O: Sink>(alloc: Global, words: &[String], desk: &mut D, out: &mut O) -> Ending
    requires idle { (D.scene desk.old).mode ≡ Idle }
    requires going { (D.scene desk.old).stopped ≡ false }
    requires out_going { (O.told out.old).stopped ≡ false }
    ensures { RanAs (map string_bytes words.now) result (D.scene desk.old) (D.scene desk.new) (O.told out.old) (O.told out.new) }
{
    match command(alloc, words) {
        Ok(job) => perform(alloc, &job, desk, out),
        Err(fault) => give_up(alloc, out, words_stop(fault)),
    }
}

/// Does a job.
fn perform<D: Desk, O: Sink>(alloc: Global, job: &Job, desk: &mut D, out: &mut O) -> Ending
    requires idle { (D.scene desk.old).mode ≡ Idle }
    requires going { (D.scene desk.old).stopped ≡ false }
    requires out_going { (O.told out.old).stopped ≡ false }
    requires ranges { IsInRange job.now }
    ensures { by_job (Ok job.now) result (D.scene desk.old) (D.scene desk.new) (O.told out.old) (O.told out.new) }
{
    match job {
        Job::Check { deck, tree } => check::check(alloc, deck.as_text(), tree.as_text(), desk, out),
        Job::Solve(asked) => solve::solve(alloc, asked, desk, out),
        Job::Print { deck } => print::print(alloc, deck.as_text(), desk, out),
    }
}
