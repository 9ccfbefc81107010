//! Whether a point satisfies a deck, and what its objective is. Both are exact.
//!
//! Both calls take a point whose denominator and parts are below 2^36 in size. With the limits that
//! every deck keeps each sum then fits 128 bits: no call is refused, and none takes memory.
//!
//! Sums are never divided. A side of a row is compared as the side times the square of the
//! denominator, and an end of a column as the end times the denominator.
//!
//! A call walks once over the entries, and once over the arcs. `feasible` adds up the sums of all rows
//! together, in an array of 8 KiB on the stack.
#![tactic(auto)]

mod columns;
mod first_broken;
mod quotient;
mod row_sums;
mod rows;
mod sets;
mod sums;
mod value;

pub use first_broken::feasible;
pub use um_model::{Broken, Point};
pub use value::objective;
