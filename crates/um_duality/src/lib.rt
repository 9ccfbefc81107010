//! Linear programming duality for the relaxation of a deck over a box.
//!
//! The definitions say what a board shows that stands for a deck: the frame of the deck's
//! [relaxation](um_lp::Relaxation), the ends of a box, and what is read from a board whose steps have
//! ended, which is the vertex, the multipliers, and those of Farkas. [`laws`] says what these mean for
//! the deck, on every box: the vertex satisfies the rows and lies within the ends of the box, the bound
//! of the multipliers is the objective of the vertex, and the multipliers of Farkas empty the box.
//! Boards and steps are not needed to state a law, only the state that a board shows.
//!
//! For now of decks without arcs.
#![tactic(auto)]

pub mod laws;
