//! Multipliers: what the objective and the rows of a deck are multiplied by in a Lagrangian bound.
//!
//! [`Multipliers`] are data with public fields, and a row that is not named has the multiplier
//! 0. What a caller may want of them is said in `specs/` and tested here: that they are in normal
//! form, that their rows rise and are rows of a deck, and that they are of limited size. None of
//! this holds of every value of the type.
#![tactic(auto)]

pub mod multipliers;

pub use multipliers::{Multipliers, Price};
