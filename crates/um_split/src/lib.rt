//! The branch that a point of a box asks for, where it breaks the rule of an integer column, of a
//! semicontinuous column or of an ordered set.
//!
//! [`branch_of`] takes the first integer column whose value is not whole, at the floor of that value; where
//! there is none, the first semicontinuous column that is neither 0 nor at least its threshold; and where
//! there is none of those, the first set whose rule fails, at its average split. [`split`] is that of one
//! set: the average is the mean of the weights of the set's members, each weighed by its member's part, and
//! the set is cut at the last position whose weight is at most the average. A caller may rest on this: the
//! branch fits the box, and the point lies in neither child, so each branch takes the point away. The ends of
//! continuous columns may be infinite.
//!
//! A value at its threshold keeps the column's rule, and a threshold of 0 is never broken. Averages are not
//! divided out, and the sums fit 128 bits for points whose denominator and parts are below 2^36 in size. A
//! call takes no memory, and walks at most four times over the positions of a set's interval.
#![tactic(auto)]

mod averages;
mod branching;
mod columns;
pub mod laws;
mod positions;
mod splitting;

pub use branching::branch_of;
pub use splitting::split;
pub use um_model::{Branch, Point};
