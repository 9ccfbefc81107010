//! A dense board: all rows of the tableau, each a line of whole numbers over its own denominator.
//!
//! [`Tableau`] is a `Board` of `um_lp`, and all that a caller may rest on is said there. It takes all
//! its memory at its making, also that for grid points, for the rows after a pivot and for a copy of the
//! first rows: for each row and column three numbers of 64 bits and three of 128. No act asks for more.
//!
//! An act writes the new numbers beside the old ones and exchanges them at its end, so that one that
//! answers `Wide` has changed nothing. A row that has 0 in the entering column is neither written nor
//! copied. A reset copies the first rows. How lines are added is said in `um_lines`.
#![tactic(auto)]

mod given;
mod lines;
mod making;
mod rebox;
mod reset;
mod rows;
mod sheet;
mod start;
mod tableau;
mod values;

pub use tableau::Tableau;
