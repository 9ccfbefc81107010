//! The sections of a deck's text.

ghost use Rattle.std.specs.Prelude.{◌≡◌, Some};
ghost use Rattle.um_decktext.specs.Sections.{is_section, rank, section_called};

/// In the order in which they come.
#[derive(Clone, Copy, PartialEq, Eq, Debug)]
pub enum Section {
    Name,
    Objsense,
    Rows,
    Columns,
    Rhs,
    Ranges,
    Bounds,
    Sos,
    Arcs,
    Endata,
}

impl Section {
    /// The section whose heading begins with this word.
    pub fn called(word: &[u8]) -> Option<Section>
        ensures { result ≡ section_called word.now }
    {
        if word == b"NAME".as_slice() {
            Some(Section::Name)
        } else if word == b"OBJSENSE".as_slice() {
            Some(Section::Objsense)
        } else if word == b"ROWS".as_slice() {
            Some(Section::Rows)
        } else if word == b"COLUMNS".as_slice() {
            Some(Section::Columns)
        } else if word == b"RHS".as_slice() {
            Some(Section::Rhs)
        } else if word == b"RANGES".as_slice() {
            Some(Section::Ranges)
        } else if word == b"BOUNDS".as_slice() {
            Some(Section::Bounds)
        } else if word == b"SOS".as_slice() {
            Some(Section::Sos)
        } else if word == b"ARCS".as_slice() {
            Some(Section::Arcs)
        } else if word == b"ENDATA".as_slice() {
            Some(Section::Endata)
        } else {
            None
        }
    }

    /// Its place in the order of sections.
    pub fn rank(self) -> usize
        ensures { result ≡ rank self }
    {
        match self {
            Section::Name => 0,
            Section::Objsense => 1,
            Section::Rows => 2,
            Section::Columns => 3,
            Section::Rhs => 4,
            Section::Ranges => 5,
            Section::Bounds => 6,
            Section::Sos => 7,
            Section::Arcs => 8,
            Section::Endata => 9,
        }
    }

    pub fn is(self, other: Section) -> bool
        ensures { result ≡ is_section other (Some self) }
    {
        self.rank() == other.rank()
    }
}
