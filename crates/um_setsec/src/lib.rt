//! Lines of ordered sets, of quadratic arcs and of semicontinuous bounds, each told to a deck maker.
//!
//! [`set_line`], [`arc_line`] and [`semi_line`] look at the number of words first, then at the kind, then read the
//! numeral, and then make the maker's call. A caller may rest on the fault being that of the first broken
//! rule in this order, and on the maker being as it was after a fault. What surprises: a line of a set
//! whose first word is no kind is one of a member, so that a kind of set is never unknown. The words of
//! lines and their numerals, [`few_of`], [`word`] and [`number`], are here for the reader of whole decks too.
#![tactic(auto)]

mod arcs;
mod few;
mod numerals;
mod semis;
mod sets;

pub use arcs::arc_line;
pub use few::{Few, few_of, word};
pub use numerals::number;
pub use semis::semi_line;
pub use sets::set_line;
