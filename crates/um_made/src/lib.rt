//! From what was said of a deck to the parts of the deck that it makes.
//!
//! [`Told`] is what was said, in lists, without a fault of a single statement. [`Told::parts`] looks at
//! the rules on the whole deck in their order, and gives the first fault, or the deck's parts: numbers
//! scaled, entries by rising row, members by rising weight, costs as for minimising. Names are moved.
//!
//! It walks over the columns twice and keeps a list of numbers for each row, so that the time grows
//! with what was said and not with rows times entries. Nothing is out of range: whether a number is
//! too fine or too large is told without scaling it past 128 bits.
#![tactic(auto)]

mod columns;
mod entries;
mod made;
mod marks;
mod named;
mod numbers;
mod parts;
mod push;
mod rows;
pub mod scaled;
mod sets;
mod sides;
mod told;

pub use parts::{ColumnPart, RowPart, SetPart};
pub use told::Told;
