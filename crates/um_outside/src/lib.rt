//! The outside: where files and output come from and go to.
//!
//! A program that reads and writes through a [`Desk`] and a [`Sink`] can be proved without the
//! system: their contracts say what each call does to what they tell of themselves. Two of each
//! are here, one in memory that tells everything, for tests, and one over std that tells nothing.
//! A desk also tells which files were asked for, in order, and may cease to tell it.
//!
//! A fault sets a flag that nothing clears, and every call asks that the flag is not set: after a
//! fault nothing more is called. A call that fails has raised the count of faults.
#![tactic(auto)]

mod append;
mod asked;
mod calls;
mod desk;
mod memory_desk;
mod memory_sink;
mod sink;
mod standard;
mod stored;
mod whole_file;

pub use asked::Access;
pub use desk::Desk;
pub use memory_desk::MemoryDesk;
pub use memory_sink::MemorySink;
pub use sink::{Sink, write_all};
pub use standard::{FileDesk, StdSink};
use thiserror::Error;
pub use whole_file::{FileFault, read_file, write_file};

/// A call on the outside failed. It says no more, since nothing is called after it.
#[derive(Clone, Copy, PartialEq, Eq, Debug, Error)]
#[error("a fault of the outside")]
pub struct Failed;
