//! Command words: what a command line asks for.
//!
//! [`command`] first tests whether the words are a line of a command at all: the command's word, its files and its
//! options, no word of a file or value empty or with a hyphen in front. Only a plain line is read by clap, so that no
//! text of clap's own is ever shown. A caller may rest on this: the job is what the words say by their definition, or
//! the first fault of them is told, whatever the order of the options; or no memory was found.
//!
//! A command that is not read yet is no line, and neither is an option: each list of them has only those that are. One
//! more command is a variant of [`Job`], a file, and a line in `command`; one more option is a word in the list of
//! its command.
#![tactic(auto)]

mod check;
mod commands;
mod files;
mod job;
pub mod laws;
mod print;
mod solve;
mod values;
mod words;

pub use commands::command;
pub use job::{Job, SolveWords, WordFault};
