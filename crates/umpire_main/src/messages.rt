//! What the program says on standard error, for people. Nothing is promised of it: a script goes by the status, and by
//! what stands on standard output.

use crate::desk::{AskedFile, NamingDesk};
use std::io;
use um_outside::Access;
use umpire::{Fault, Outcome, Refusal, Status};

/// Says what the status leaves open, where it does.
pub fn explain<D>(
    rt: &HostRuntime,
    words: &[String],
    outcome: &Outcome,
    desk: &NamingDesk<D>,
) -> io::Result<()> {
    match outcome.status {
        Status::Words => explain_words(rt, words),
        Status::Fault => explain_fault(rt, desk),
        Status::Memory => no_memory(rt),
        Status::Refused => explain_refusal(rt, outcome),
        _ => Ok(()),
    }
}

/// No memory was found.
pub fn no_memory(rt: &HostRuntime) -> io::Result<()> {
    eprintln!(rt; "umpire: no memory was found (status 8)")
}

/// The version where it is asked for, and else the usage.
fn explain_words(rt: &HostRuntime, words: &[String]) -> io::Result<()> {
    match words {
        [word] if word.as_str() == "--version" => eprintln!(rt; "umpire 1"),
        _ => explain_usage(rt),
    }
}

fn explain_usage(rt: &HostRuntime) -> io::Result<()> {
    eprintln!(rt; "usage: umpire solve DECK [--nodes N] [--pivots N] [--tree FILE]")?;
    eprintln!(rt; "       umpire check DECK TREE")?;
    eprintln!(rt; "       umpire print DECK")
}

/// Which file failed, or that the output did.
fn explain_fault<D>(rt: &HostRuntime, desk: &NamingDesk<D>) -> io::Result<()> {
    if !desk.failed {
        return eprintln!(rt; "umpire: the output failed (status 7)");
    }
    match &desk.last {
        Some(file) => explain_file(rt, file),
        None => eprintln!(rt; "umpire: a file cannot be read or written (status 7)"),
    }
}

fn explain_file(rt: &HostRuntime, file: &AskedFile) -> io::Result<()> {
    let name = file.name.as_text();
    match file.access {
        Access::Open => eprintln!(rt; "umpire: cannot read {name} (status 7)"),
        Access::Create => eprintln!(rt; "umpire: cannot write {name} (status 7)"),
    }
}

/// Where to read on, for the rules of a deck that decks of other programs break most.
fn explain_refusal(rt: &HostRuntime, outcome: &Outcome) -> io::Result<()> {
    let Some(Refusal::Deck(refusal)) = outcome.refusal else {
        return Ok(());
    };
    match refusal.fault {
        Fault::NotFinite => {
            eprintln!(rt; "umpire: awk -f tools/ends.awk DECK lists the columns that lack an end")
        }
        Fault::TooFine | Fault::TooLarge | Fault::CrossedBounds => {
            eprintln!(rt;
                "umpire: see docs/manual.md, 'Numbers that are too fine, too large or crossed'"
            )
        }
        _ => Ok(()),
    }
}
