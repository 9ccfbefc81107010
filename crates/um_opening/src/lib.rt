//! The nodes of a search, solved under their numbers: the board is opened under number 1.
//!
//! [`open`] solves the start problem where a cost wants an infinite end. Where that shows a ray, the board is
//! made anew without costs: from then on the search looks for a feasible point alone, as the objective has no
//! end if there is one. [`solve_number`] opens the board under number 1 and then solves the node; every later
//! node is begun where the one before ended. The pivots of the start problem count as pivots of number 1.
//! [`laws`] says what a caller may rest on.
//!
//! For now of decks without arcs.
#![tactic(auto)]

pub mod laws;
mod numbers;
mod opening;

pub use numbers::{NumberEnd, solve_number};
pub use opening::{Opened, open};
