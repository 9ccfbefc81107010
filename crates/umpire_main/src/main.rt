//! The program `umpire`: hands the words of its command line, the system's files and standard output
//! to [`umpire::run`], and ends with the number of its status.
//!
//! Where no memory is found for the words nothing is called, and the status is 8; where the system
//! refuses them for another cause it is 7. On standard error stands what the status leaves open.
#![tactic(auto)]

mod desk;
mod messages;

use crate::desk::NamingDesk;
use crate::messages::{explain, no_memory};
use std::process::ExitCode;
use std::{env, io};
use um_outside::{FileDesk, StdSink};
use umpire::{Status, run};

fn words_of(rt: &HostRuntime) -> io::Result<Vec<String>> {
    let words = env::args(rt)?.skip(1).collect(rt.alloc())?;
    Ok(words)
}

fn main(rt: HostRuntime) -> ExitCode {
    let words = match words_of(&rt) {
        Ok(words) => words,
        Err(error) if error.kind() == io::ErrorKind::OutOfMemory => {
            let _ = no_memory(&rt);
            return ExitCode::from(Status::Memory.number());
        }
        Err(_) => return ExitCode::from(Status::Fault.number()),
    };
    let mut desk = NamingDesk::new(rt.alloc(), FileDesk::new(&rt));
    let mut out = StdSink::new(&rt);
    let outcome = run(rt.alloc(), words.as_slice(), &mut desk, &mut out);
    let _ = explain(&rt, words.as_slice(), &outcome, &desk);
    ExitCode::from(outcome.status.number())
}
