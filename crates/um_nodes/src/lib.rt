//! The nodes of a search that wait, and which of them comes next.
//!
//! A node is picked by its key alone: the least bound first, which is `value / y0` of the node's multipliers, and
//! a node without a bound before all others. Of equal bounds the least id comes first, so no two runs differ.
#![tactic(auto)]

mod open_nodes;
mod order;

pub use open_nodes::{Key, OpenNode, OpenNodes};
