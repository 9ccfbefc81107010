//! Why what is said is no deck.

ghost use Rattle.std.specs.Prelude.{◌≡◌};

use std::error::Error;
use std::fmt;
use um_num::Memory;

/// Why a text is no deck, or why none could be made of it.
#[derive(Clone, Copy, PartialEq, Eq, Debug)]
pub enum Fault {
    /// The file is longer than a deck may be.
    TooLong,
    /// There is no line ENDATA, and no other fault.
    NoEnd,
    /// A heading names no section.
    UnknownSection,
    /// A section comes again or too late, ROWS or COLUMNS is missing before a later section, or a data line stands
    /// where none may.
    SectionOrder,
    /// The number of words is none of its section's, or a member stands before all sets.
    BadWords,
    /// The kind of a row, a bound or an arc, or a sense, is unknown.
    UnknownKind,
    /// A word in a number's place is no number.
    BadNumber,
    /// A number has more than 30 digits, the zeros at its ends not counted, or an exponent beyond 400.
    TooWide,
    /// A statement names a row that there is not.
    UnknownRow,
    /// A statement names a column that there is not.
    UnknownColumn,
    /// A row's name comes again.
    TwiceRow,
    /// A column comes again after another one, or after a marker.
    TwiceColumn,
    /// A number of a column and row, a side or a range of a row, or an arc comes again.
    TwiceEntry,
    /// A set's name comes again.
    TwiceSet,
    /// A column comes again in one set.
    TwiceMember,
    /// There is no N row before the columns.
    NoObjective,
    /// A marker's third word is neither INTORG nor INTEND, or markers do not pair.
    Marker,
    /// A bound `SC` of an integer column, or `LI`, `UI` or `BV` of a semicontinuous one.
    SemiInteger,
    /// An arc's row is not the objective.
    ArcRow,
    /// There are too many rows, columns, sets, or columns with arcs.
    TooMany,
    /// An end, a weight, a row, the objective, or a reference row has too many decimals.
    TooFine,
    /// A number is above its limit.
    TooLarge,
    /// The threshold of a semicontinuous column is below 0 or minus infinity.
    SemiLower,
    /// A low end, or a threshold, is above the high end.
    CrossedBounds,
    /// An integer or semicontinuous column, a member of a set, or a column with an arc has an infinite end.
    NotFinite,
    /// The low end of a member of a set is not 0.
    LowerNotZero,
    /// A column with an arc is a member of a set, or semicontinuous.
    ArcInSet,
    /// A set has no member.
    EmptySet,
    /// Two members of a set have one weight.
    TwiceWeight,
    /// Not solved yet: the deck breaks no rule, but has an arc.
    NotYet,
    /// Memory ran out, which says nothing of the text.
    Memory,
}

impl Fault {
    ghost use Rattle.um_statements.specs.FaultWords.{fault_word};

    /// The word that says it, as in a line of a refusal.
    pub fn word(self) -> &'static str
        ensures { result.now ≡ fault_word self }
    {
        match self {
            Fault::TooLong => "TooLong",
            Fault::NoEnd => "NoEnd",
            Fault::UnknownSection => "UnknownSection",
            Fault::SectionOrder => "SectionOrder",
            Fault::BadWords => "BadWords",
            Fault::UnknownKind => "UnknownKind",
            Fault::BadNumber => "BadNumber",
            Fault::TooWide => "TooWide",
            Fault::UnknownRow => "UnknownRow",
            Fault::UnknownColumn => "UnknownColumn",
            Fault::TwiceRow => "TwiceRow",
            Fault::TwiceColumn => "TwiceColumn",
            Fault::TwiceEntry => "TwiceEntry",
            Fault::TwiceSet => "TwiceSet",
            Fault::TwiceMember => "TwiceMember",
            Fault::NoObjective => "NoObjective",
            Fault::Marker => "Marker",
            Fault::SemiInteger => "SemiInteger",
            Fault::ArcRow => "ArcRow",
            Fault::TooMany => "TooMany",
            Fault::TooFine => "TooFine",
            Fault::TooLarge => "TooLarge",
            Fault::SemiLower => "SemiLower",
            Fault::CrossedBounds => "CrossedBounds",
            Fault::NotFinite => "NotFinite",
            Fault::LowerNotZero => "LowerNotZero",
            Fault::ArcInSet => "ArcInSet",
            Fault::EmptySet => "EmptySet",
            Fault::TwiceWeight => "TwiceWeight",
            Fault::NotYet => "NotYet",
            Fault::Memory => "Memory",
        }
    }
}

impl fmt::Display for Fault {
    fn fmt<W: fmt::Write>(&self, f: &mut fmt::Formatter<W>) -> fmt::Result {
        f.write_str(self.word())
    }
}

impl Error for Fault {}

impl From<Memory> for Fault {
    ghost use Rattle.um_statements.specs.declared.fault.Fault.TheVariants as fault;

    ghost from_gives = { λ _ given. given ≡ fault.Memory };

    fn from(_memory: Memory) -> Fault {
        Fault::Memory
    }
}
