//! The linear relaxation of a deck over a box, and what a board that has ended on it says.
//!
//! [`build`] makes the relaxation, [`rebox`] puts the ends of a box on a board. From a board whose
//! steps have ended, [`multipliers`] reads the rows' multipliers, [`vertex`] the point, and [`farkas`]
//! the multipliers that show that there is no point. What these mean for the deck are the laws of
//! `um_duality`, whose definitions the readings meet. Numbers are read as least whole multiples, and
//! refused where one of them is too large for a tree.
//!
//! For now of decks without arcs.
#![tactic(auto)]

mod ends;
mod infeasible;
mod key_rows;
mod large;
mod making;
mod point;
mod row_multipliers;
mod whole;

pub use ends::{Reboxed, rebox};
pub use infeasible::farkas;
pub use large::Large;
pub use making::build;
pub use point::vertex;
pub use row_multipliers::multipliers;
pub use um_lp::{Multipliers, Price, Relaxation};
pub use um_model::Point;
pub use whole::{Whole, least_whole};
