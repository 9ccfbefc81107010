//! The bounded dual simplex method on any board.
//!
//! [`step`] takes one step and [`solve`] takes steps until none is due. Which step is due follows from
//! the state alone: of the basic columns outside their ends the one of least index leaves, and of the
//! columns that may enter the one of least ratio does, by least index at a tie. So two boards in one
//! state take the same steps. Both functions keep a board dual feasible, and an answer `Wide` names an
//! operation that is out of range; the step in which it came has then changed nothing.
#![tactic(auto)]

mod entering_column;
pub mod laws;
mod leaving_row;
mod method;
mod numbers;

pub use entering_column::{EnteringColumn, entering};
pub use leaving_row::{LeavingRow, leaving};
pub use method::{Choice, Ended, Stepped, next, solve, step};
