//! The commands, one file each: the words of the command, what it does, and how it ends.

pub(crate) mod check;
pub(crate) mod print;
pub(crate) mod solve;
