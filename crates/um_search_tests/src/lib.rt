//! Tests of a report, and of searches on a board that is handed in.
//!
//! They stand apart, so that the crates that they try are proved once and need not wait for the reader of decks.
#![tactic(auto)]

#[cfg(test)]
mod reports;
#[cfg(test)]
mod runs;
