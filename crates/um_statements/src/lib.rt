//! What can be said of a deck: statements, the rules that each must keep, and the deck that they make.
//!
//! Definitions and laws; the code has types alone. What was *said* is a list of rows, columns,
//! sets and arcs. A rule is whether it is broken and the [`Fault`] that says so, and rules stand in
//! lists in the order in which they are looked at, so that the first broken one gives the fault. A
//! caller may rest on the laws of `laws`: what is collected from statements is what is told one by
//! one, and what breaks no rule is a well-formed deck.
//!
//! Numbers are decimals in normal form; the deck has them scaled. Ends are in thousandths, and set
//! weights in millionths.
#![tactic(auto)]

pub mod fault;
pub mod laws;
pub mod parts;

pub use fault::Fault;
pub use parts::{ArcPart, BoundKind, End, Ends, EntryPart, MemberPart, RowKind};
