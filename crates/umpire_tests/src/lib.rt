//! Tests of calls whose desk or sink fails, and of files of the system.
//!
//! They stand apart, so that the crates that they try are proved once. Command lines over whole files are cases of
//! `umpire_cases`.
#![tactic(auto)]

#[cfg(test)]
mod faults;
#[cfg(test)]
mod files;
