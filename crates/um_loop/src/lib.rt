//! The loop of a branch and bound search: its acts, and the run from act to act.
//!
//! A [`Search`] holds the tree that grows, the nodes that wait, the best point so far and the least bound of
//! the closed leaves. [`Search::new`] begins one, in which the root waits alone. [`Search::run`] takes the
//! waiting nodes best first, closes those whose key proves that nothing better lies in them, solves the others one after the other on one board, and closes or branches
//! them, until none waits or the search stops early. Its contract tells the whole history: for each number
//! the node, its box, its pivots, the states of the board, and what became of it. Where the opening of the board
//! shows a ray of the deck, the run ends at the first feasible point. Decks may have infinite ends, integer and
//! semicontinuous columns and ordered sets, but no arcs yet; no limit of the grid stops a search of these.
#![tactic(auto)]

mod acts;
mod going;
mod search;
mod vertices;

pub use acts::lesser;
pub use search::{Ending, Halt, Search};
pub use vertices::is_endless;
