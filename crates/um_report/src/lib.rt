//! What the program says of an answer: the report of a search, and the line of a verdict.
//!
//! [`report`] says every kind of answer in lines of words, as `specs/Reports.antt` has them; an
//! objective and a bound come as the deck states them, negated where it maximises. [`verdict_line`]
//! says what a checker found. Both are functions of what they are given, and take only memory.
#![tactic(auto)]

mod answer;
mod columns;
mod verdict;
mod work;

pub use answer::report;
pub use verdict::verdict_line;
