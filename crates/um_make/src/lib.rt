//! The normal text of a deck: the one text that stands for all deck texts of that deck.
//!
//! [`print`] writes any deck, whatever it holds. What the lines are is said in `specs/NormalLines.antt` by
//! headings and data lines, and what their numerals are in `specs/Numerals.antt`. A section that may be
//! missing has its heading exactly where it has a line. What surprises: a column without any number gets a
//! cost of 0, since only its lines name a column; numbers of the objective are written with the deck's
//! sense, so a deck that maximises has the negatives of what it keeps.
#![tactic(auto)]

mod bounds;
mod columns;
mod front;
mod numbers;
mod numeral;
mod printer;
mod sets;
mod sides;

pub use printer::print;
