//! Why a text is refused as a tree.

ghost use Rattle.std.specs.Prelude.{◌≡◌};

use std::error::Error as StdError;
use std::fmt;
use thiserror::Error;
use um_num::Memory;

/// The rule that a text breaks, or want of memory.
#[derive(Clone, Copy, PartialEq, Eq, Debug)]
pub enum TreeWord {
    /// The bytes end before the line `END` does.
    NoEnd,
    /// A fixed word, the number of words or the spacing is wrong, or bytes follow the line `END`. So it is also
    /// where the denominator of a point is below 1, where a part of a point or a ray is missing or too many, and
    /// where a row and its multiplier have not one colon between them.
    BadWord,
    /// A word in a number's place is none, or is below 0 where only a number from 0 on is meant.
    BadNumber,
    /// A number is out of range, or out of its field's type.
    TooWide,
    /// The tree is of another deck, or the deck's name cannot be written as one word.
    WrongDeck,
    /// Rows do not rise, a multiplier is 0, a row or a void column is not in the deck, or `empty` gives the objective
    /// a multiplier other than 0.
    BadNode,
    /// There are more nodes than a tree holds, or the file is longer than the text of a tree may be.
    TooMany,
    /// Memory ran out, which says nothing of the text.
    Memory,
}

impl TreeWord {
    ghost use Rattle.um_treetext.specs.FaultWords.{tree_fault_word};

    /// The word that says it, as in a line of a refusal.
    pub fn word(self) -> &'static str
        ensures { result.now ≡ tree_fault_word self }
    {
        match self {
            TreeWord::NoEnd => "NoEnd",
            TreeWord::BadWord => "BadWord",
            TreeWord::BadNumber => "BadNumber",
            TreeWord::TooWide => "TooWide",
            TreeWord::WrongDeck => "WrongDeck",
            TreeWord::BadNode => "BadNode",
            TreeWord::TooMany => "TooMany",
            TreeWord::Memory => "Memory",
        }
    }
}

impl fmt::Display for TreeWord {
    fn fmt<W: fmt::Write>(&self, f: &mut fmt::Formatter<W>) -> fmt::Result {
        f.write_str(self.word())
    }
}

impl StdError for TreeWord {}

impl From<Memory> for TreeWord {
    ghost use Rattle.um_treetext.specs.declared.fault.TreeWord.TheVariants as word;

    ghost from_gives = { λ _ given. given ≡ word.Memory };

    fn from(_memory: Memory) -> TreeWord {
        TreeWord::Memory
    }
}

/// Why a text is refused as a tree, and at which line, counted from 1.
#[derive(Clone, Copy, PartialEq, Eq, Debug, Error)]
#[error("{fault} at line {line}")]
pub struct TreeFault {
    pub line: u32,
    pub fault: TreeWord,
}
