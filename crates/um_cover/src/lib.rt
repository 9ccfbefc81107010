//! What is known of the nodes of a growing tree, why the tree that it tells is accepted, and the boxes of
//! its nodes.
#![tactic(auto)]

mod boxes;
mod laws;

pub use boxes::box_of;
pub use laws::{accepted_law, improved_law, parted_law, settled_law};
