//! Tests of numbers, of written texts, of the deck maker, and of points and boxes of the deck that it makes.
//!
//! They stand apart, so that the crates that they try are proved once. Whole texts of decks are cases of `umpire_cases`.
#![tactic(auto)]

#[cfg(test)]
mod boxes;
#[cfg(test)]
mod maker;
#[cfg(test)]
mod numbers;
#[cfg(test)]
mod points;
#[cfg(test)]
mod script;
#[cfg(test)]
mod texts;
