//! The text of a tree: an answer to a deck, with the tree that proves it.
//!
//! [`write`] gives the one text that an answer has for a deck, whatever kind it is of and whichever of
//! its fields are there. What the lines are, by their words, is said in `specs/TreeText.antt`. An answer
//! is written as it is: whether its fields go together, and whether it is right, a checker says.
//!
//! [`read`] gives the answer that a text says, or the line and the fault of the first rule that the text
//! breaks. What it gives speaks only of rows and columns that the deck has. The laws of [`laws`] say that
//! each text is of one answer or breaks one rule first.
#![tactic(auto)]

mod causes;
mod fault;
pub mod laws;
mod nodes;
mod reading;
mod words;
mod writer;

pub use fault::{TreeFault, TreeWord};
pub use reading::read;
pub use words::{cause_word, name_word};
pub use writer::write;
