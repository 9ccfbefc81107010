//! The law that the normal text of a deck is the text of that deck.
//!
//! Nothing runs here. [`laws::round_law`] says that the text of `um_make`'s `specs/NormalLines`, read by the
//! rules of `um_mps`, is the deck that it was made of; so what writes this text loses nothing of a deck. What
//! surprises: a number has its least numeral, and a column without any number gets a cost of 0, since
//! only its lines name a column. Decks with arcs in rows are left out, as texts may have arcs in the objective
//! alone; names must be words that a line can hold.
#![tactic(auto)]

pub mod laws;
