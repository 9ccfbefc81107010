//! Linear programs over boxes: what a board of the bounded dual simplex method stands for.
//!
//! A board keeps the tableau of a basis: each basic column is a sum of entries times the nonbasic
//! columns. [`Board`] is the trait that every such board has, and says what each act leaves; the
//! steps of the method are defined over the state that a board shows. A caller may rest on this: an
//! act that answers [`Wide`] has changed nothing, and a basis has one table of entries, so that two
//! boards on one basis show the same entries, and with the same statuses, ends and costs the same numbers.
//!
//! Columns are counted from 0: first the columns of the relaxation, then a slack for each row, then
//! the places for grid points. A slack is the sum of its row.
#![tactic(auto)]

mod board;
pub mod laws;
mod relaxation;
mod sides;

pub use board::{At, Board, Costs};
pub use relaxation::{Bend, Relaxation, Term};
pub use sides::{harms, helps, is_above_end, is_below_end};
pub use um_multipliers::{Multipliers, Price};
pub use um_num::Wide;
