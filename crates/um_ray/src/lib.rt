//! The start of a search on decks with infinite ends.
//!
//! A node's columns get their ends only where each end that a reduced cost wants is finite. Where a cost
//! wants an infinite one, the start problem is solved first: each column may go from 0 by 1 towards an end
//! that is not there, and each row's sum must be 0 or lie towards a side that is not there. Its least value
//! is 0 or below. Where it is 0, the basis is one whose reduced costs want finite ends alone; where it is
//! below 0, the point is a ray of the deck, along which no end stops a feasible point and the objective
//! falls. [`laws`] says so.
//!
//! For now of decks without arcs.
#![tactic(auto)]

mod ends;
pub mod laws;
mod starting;

pub use starting::{Started, start};
