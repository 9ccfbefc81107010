//! The checker: whether a tree proves its answer, and if not, why not.
//!
//! [`Checker::verdict`] goes over the nodes of a tree once, in preorder, with one box that it changes in
//! place. A right branch that waits is found again by what is undone on the way back to it, so neither
//! the depth of a tree nor its size asks for memory. Yes is said exactly where the answer is accepted,
//! and else the first reason against it, with its node.
//!
//! An unbounded answer has no tree; its ray is tested in one walk over the entries, with the sums of
//! all rows together in an array of 8 KiB on the stack.
#![tactic(auto)]

mod bound;
mod checker;
mod fields;
mod leaf;
mod nodes;
mod point;
mod rays;
mod walk;

pub use checker::Checker;
pub use um_model::{Reason, Verdict};
