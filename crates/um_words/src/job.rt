//! What a command line asks for.

ghost use Rattle.std.specs.Prelude.{◌≡◌};
ghost use Rattle.um_words.specs.Faults.{words_fault_word};

use std::error::Error;
use std::fmt;
use um_num::FileName;

/// What `solve` is asked for.
#[derive(Debug, Drop)]
pub struct SolveWords {
    pub deck: FileName,
    /// The most nodes that may be solved.
    pub nodes: u32,
    /// The most pivots that may be made in all.
    pub pivots: u64,
    /// The file for the tree, where one is named.
    pub tree: Option<FileName>,
}

/// What a command line asks for.
#[derive(Debug, Drop)]
pub enum Job {
    Solve(SolveWords),
    Check { deck: FileName, tree: FileName },
    Print { deck: FileName },
}

/// Why the words of a command line are refused.
#[derive(Clone, Copy, PartialEq, Eq, Debug)]
pub enum WordFault {
    /// They are no command.
    Line,
    /// The number of nodes is no whole numeral from 1 to 100,000.
    Nodes,
    /// The number of pivots is no whole numeral from 1 to 10,000,000.
    Pivots,
    /// No memory was found. This is no fault of the words.
    Memory,
}

impl WordFault {
    /// The word that names the fault in a refusal.
    pub fn word(self) -> &'static str
        ensures { result.now ≡ words_fault_word self }
    {
        match self {
            WordFault::Line => "Line",
            WordFault::Nodes => "Nodes",
            WordFault::Pivots => "Pivots",
            WordFault::Memory => "Memory",
        }
    }
}

impl fmt::Display for WordFault {
    fn fmt<W: fmt::Write>(&self, f: &mut fmt::Formatter<W>) -> fmt::Result {
        f.write_str(self.word())
    }
}

impl Error for WordFault {}
