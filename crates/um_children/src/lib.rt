//! The children of a node that is split: the box, the node and the key of each child.
//!
//! A child is made in its parent's box, which is entered and left again. What is open waits under the parent's
//! multipliers, and its key is their value on the child's own box; in the tree stand the multipliers 1 and none
//! until the search stops.
#![tactic(auto)]

mod children;
mod handed;
mod keys;

pub use children::{Child, make_child, open_node};
pub use handed::{copy_of, one_and_none};
pub use keys::key_of;
