//! How a call ended.

ghost use Rattle.umpire.specs.Endings.{status_number};
ghost use Rattle.std.specs.Prelude.{◌≡◌};

use um_model::{Answer, Verdict};
use um_mps::ReadFault;
use um_treetext::TreeFault;
use um_words::WordFault;

/// How a call ended. The number of a status, from 0 in this order, is the program's exit status.
#[derive(Clone, Copy, PartialEq, Eq, Debug)]
pub enum Status {
    /// An optimal answer, a verdict yes, or a deck printed.
    Optimal,
    Infeasible,
    Unbounded,
    Limit,
    Overflow,
    /// A file's text was refused.
    Refused,
    /// The words of the command line were refused.
    Words,
    /// A file or the output failed.
    Fault,
    /// No memory was found.
    Memory,
    /// A verdict no.
    No,
}

impl Status {
    /// The program's exit status.
    pub fn number(self) -> u8
        ensures { result ≡ status_number self }
    {
        match self {
            Status::Optimal => 0,
            Status::Infeasible => 1,
            Status::Unbounded => 2,
            Status::Limit => 3,
            Status::Overflow => 4,
            Status::Refused => 5,
            Status::Words => 6,
            Status::Fault => 7,
            Status::Memory => 8,
            Status::No => 9,
        }
    }
}

/// What was refused. Want of memory is no refusal.
#[derive(Clone, Copy, PartialEq, Eq, Debug)]
pub enum Refusal {
    Words(WordFault),
    /// The tolerance asked for is below the least that the deck allows, in thousandths.
    LowTolerance { least: i64 },
    /// The first rule that a deck's text breaks, and its line. Line 0 is the whole file: it is too
    /// long, it is empty, or its deck is not solved or checked yet, as it has an arc.
    Deck(ReadFault),
    /// The first rule that a tree's text breaks, and its line. Line 0 is the whole file: it is too
    /// long, or it has no whole line.
    Tree(TreeFault),
}

/// What a call did.
#[derive(Debug, Drop)]
pub struct Outcome {
    pub status: Status,
    /// The answer of a search.
    pub answer: Option<Answer>,
    /// The verdict on a tree.
    pub verdict: Option<Verdict>,
    /// What was refused, where something was.
    pub refusal: Option<Refusal>,
}
