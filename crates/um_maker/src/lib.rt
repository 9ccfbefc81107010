//! The deck maker: any deck is made statement by statement, each fault exactly where a rule is broken.
//!
//! A [`DeckMaker`] is seen as what was said to it so far. A call that is refused leaves it as it was, so
//! that it may be used again, also after want of memory; the fault is that of the first broken rule of
//! the call, in the order of its entry in `um_statements`. Names are looked up by their bytes, without a
//! walk and without taking memory.
//!
//! Numbers are decimals in normal form; each call that takes one requires that.
#![tactic(auto)]

mod key;
mod maker;
mod named;

pub use maker::DeckMaker;
pub use um_model::SetKind;
pub use um_statements::{BoundKind, Fault, RowKind};
