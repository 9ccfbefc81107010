//! A reader of deck texts: from any bytes to a deck, or to the first rule that they break and its line.
//!
//! [`read`] goes line by line and tells a deck maker what each line says; what that is hangs on the
//! lines before it alone, kept as a [`place::Place`]. `um_decktext` says which deck a text is without a
//! reader: all lines are collected, and the rules of each line stand in one list. A caller may rest on
//! both answers being exact, the line and the rule among them, and on the laws of `laws`: bytes are the
//! text of one deck or break one rule first. What surprises: words of a heading that mean nothing are
//! skipped, and ENDATA ends the text, whatever follows. No text is copied; only names that are kept take
//! memory.
#![tactic(auto)]

mod bounds;
mod columns;
mod headings;
pub mod laws;
mod pairs;
mod place;
mod reader;
mod rows;
mod sets;

pub use reader::{ReadFault, read};
