//! Lines: whole numbers over one denominator, in lowest terms, and their sums.
//!
//! A caller may rest on this: a [`Line`] is the list of its rational numbers, each sum is exact, and
//! one whose numbers are below 2^62 in lowest terms is never refused. No sum takes memory.
//!
//! A row is held in 64 bits while all its numbers fit, with one bound of their sizes, and in 128 bits
//! else. What surprises is how a sum over a divisor is taken: modulo 2^64, with factors that hold the
//! divisor's inverse, so that neither a cell is divided nor a step tested. One bound for the whole row
//! then says whether all quotients are what they seem. The divisor is guessed from the first few sums:
//! that all are multiples of it is tried, and a wrong guess costs time alone. Where all are, it is the
//! greatest that they have in common, so that the row is in lowest terms without a pass for it.
#![tactic(auto)]

mod guess;
mod line;
mod nums;
mod products;
mod quotients;
mod short;
mod sums;
mod whole;
mod wide;

pub use line::Line;
