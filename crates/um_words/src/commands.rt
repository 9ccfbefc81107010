//! Which command the words are.

ghost use Rattle.std.specs.Prelude.{map, string_bytes, IfOk};
ghost use Rattle.um_words.specs.Commands.{job_of};
ghost use Rattle.um_words.specs.Faults.{OrMemory};
ghost use Rattle.um_words.specs.Ranges.{IsInRange};

use crate::job::{Job, WordFault};
use crate::{check, print, solve};
use std::alloc::Global;

/// The job that the words, behind the program's name, ask for.
pub fn command(alloc: Global, words: &[String]) -> Result<Job, WordFault>
    ensures said { OrMemory (job_of (map string_bytes words.now)) result }
    ensures ranges { IfOk result IsInRange }
{
    read_in_turn(alloc, words)
}

/// Asks each command in turn whether the words are its own. The commands have different first words, so that their
/// order is free.
fn read_in_turn(alloc: Global, words: &[String]) -> Result<Job, WordFault>
    ensures { OrMemory (job_of (map string_bytes words.now)) result }
{
    if let Some(job) = check::read(alloc, words)? {
        return Ok(job);
    }
    if let Some(job) = solve::read(alloc, words)? {
        return Ok(job);
    }
    if let Some(job) = print::read(alloc, words)? {
        return Ok(job);
    }
    Err(WordFault::Line)
}
