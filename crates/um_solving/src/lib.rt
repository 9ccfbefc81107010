//! The linear relaxation of one node of a search, solved on a board.
//!
//! [`solve_node`] puts the ends of a box on a board that stands for the deck, in whatever state the node
//! before left it, takes steps of the dual simplex method, and reads what they ended at: a vertex with
//! multipliers, multipliers that show that the box has no point, or why it stopped early. The board's
//! basis stays, so that the next node begins where this one ended. [`laws`] says what a caller may rest
//! on: that the next node may begin there, what a vertex and its multipliers mean for the deck, and when a
//! point of a box is feasible.
//!
//! For now of decks without arcs. The ends of continuous columns may be infinite.
#![tactic(auto)]

pub mod laws;
mod node;

pub use node::{NodeEnd, solve_node};
pub use um_model::{Multipliers, Point, Why};
