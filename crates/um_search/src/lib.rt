//! Branch and bound: from a deck and a budget to an answer with the tree that proves it.
//!
//! [`solve`] searches a deck without arcs, infinite ends, ordered sets and integer and semicontinuous columns
//! included; [`is_searched`] tells such decks. A caller may rest on this: the answer is accepted by every
//! checker of trees, and so it is right; it tells the search that it came from, with the runs of the dual
//! simplex method on all of its nodes, where it is unbounded up to the first feasible vertex; and it stops early
//! only at the budget of nodes or of pivots, or where a number is too large.
#![tactic(auto)]

mod budget;
mod ends;
mod searched;
mod solving;

pub use budget::Budget;
pub use searched::is_searched;
pub use solving::{solve, solve_on};
pub use um_model::{Answer, AnswerKind, Tree, Why};
