//! All that the program `umpire` does, over any desk and sink.
//!
//! [`run`] takes the words of a command line, reads the files that they name, and writes one text.
//! `solve DECK` solves a deck, and then writes a report; it may be told the most nodes and pivots, and a file to which
//! the tree that proves the answer is written first. `check DECK TREE` reads a deck and a tree and says whether the tree
//! proves its answer; `print DECK` reads a deck and writes its normal text. A caller may rest on this: a refusal is one
//! line that names its cause, nothing is written before the text is known, and after a fault of the outside nothing more
//! is called.
#![tactic(auto)]

mod commands;
mod ending;
mod outcome;
mod reading;
mod refusals;
mod saying;
mod top;

pub use outcome::{Outcome, Refusal, Status};
pub use top::run;
pub use um_model::{Reason, Verdict};
pub use um_mps::ReadFault;
pub use um_statements::Fault;
pub use um_treetext::{TreeFault, TreeWord};
pub use um_words::WordFault;
