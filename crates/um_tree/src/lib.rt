//! The tree of a branch and bound search while it grows, and the types of trees and answers.
//!
//! Nodes have ids: the root is 0, and a split gives the next two to its children. A [`Growth`] keeps
//! for each node where it came from, what became of it, and which node comes behind it in preorder,
//! so that a split is three writes wherever its node stands. Contracts see the first two; that the
//! links are the preorder is the type's own matter, and [`Growth::into_tree`] hands it over.
#![tactic(auto)]

mod growing;

pub use growing::{Growth, Origin};
pub use um_model::{Answer, AnswerKind, Branch, Node, Side, Solved, Tree, TreeFull, What, Why};
