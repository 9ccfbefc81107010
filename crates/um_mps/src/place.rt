//! What a line has to know of the lines before it.

ghost use Rattle.std.specs.Prelude.{◌≡◌, [], Some};
ghost use Rattle.std.specs.Option.{option_copied, option_eq, option_or};
ghost use Rattle.std.specs.Str.{bytes_eq};
ghost use Rattle.um_decktext.specs.declared.section.Section.TheVariants as section;
ghost use Rattle.um_decktext.specs.Sections.{is_section};
ghost use Rattle.um_decktext.specs.Places.{place_of, is_used};
ghost use Rattle.um_decktext.specs.LinesSay.{is_in_order};
ghost use Rattle.um_mps.specs.Behind.{behind_section};

use std::marker::Model;
use um_decktext::Section;

/// The place of a line: what the lines before it say of how it is read. Contracts see it as that.
#[derive(Drop)]
pub struct Place<'b> {
    /// The section in which the line stands.
    pub(crate) section: Option<Section>,
    pub(crate) has_rows: bool,
    pub(crate) has_columns: bool,
    /// In ROWS: whether a line of an N row came.
    pub(crate) has_objective: bool,
    /// In COLUMNS: whether a block of integer columns is open.
    pub(crate) in_block: bool,
    /// In COLUMNS: the column that the line may go on with.
    pub(crate) column: Option<&'b [u8]>,
    /// In RHS, RANGES and BOUNDS: the set that the section's first line named, if any.
    pub(crate) used: Option<Option<&'b [u8]>>,
    /// In SOS: whether members of the last set have weights.
    pub(crate) weights: Option<bool>,
}

impl<'b> Model for Place<'b> {
    ghost use Rattle.std.specs.Prelude.{option_map};
    ghost use Rattle.std.specs.Option.{option_copied};
    ghost use Rattle.um_decktext.specs.Places.{Place as Known};

    ghost Value = { Known };

    ghost view = { λ p. record { section = p.section; has_rows = p.has_rows; has_columns = p.has_columns; has_objective = p.has_objective; in_block = p.in_block; column = option_copied p.column; used = option_map option_copied p.used; weights = p.weights } };
}

impl<'b> Place<'b> {
    /// The place of the first line.
    #[tactic(auto, unfolding(um_decktext::specs::Places::place_of, um_decktext::specs::DeckLines::section_now, um_decktext::specs::DeckLines::data_now))]
    pub fn start() -> Place<'b>
        ensures { result ≡ place_of [] }
    {
        Place {
            section: None,
            has_rows: false,
            has_columns: false,
            has_objective: false,
            in_block: false,
            column: None,
            used: None,
            weights: None,
        }
    }

    /// Whether the line behind which this place is has ended the text.
    pub fn is_at_end(&self) -> bool
        ensures { result ≡ is_section section.Endata self.now.section }
    {
        match self.section {
            Some(section) => section.is(Section::Endata),
            None => false,
        }
    }

    /// Whether a heading of this section breaks no rule of order.
    pub fn may_enter(&self, section: Section) -> bool
        ensures { result ≡ is_in_order self.now section }
    {
        let is_later = match self.section {
            Some(last) => section.rank() > last.rank(),
            None => true,
        };
        is_later
            && (section.rank() <= 2 || self.has_rows)
            && (section.rank() <= 3 || self.has_columns)
    }

    /// Goes on behind a heading of this section.
    pub fn enter(&mut self, section: Section)
        ensures { self.new ≡ behind_section (Some section) self.old }
    {
        self.section = Some(section);
        self.has_rows |= section.is(Section::Rows);
        self.has_columns |= section.is(Section::Columns);
        self.has_objective = false;
        self.in_block = false;
        self.column = None;
        self.used = None;
        self.weights = None;
    }

    /// Whether a line of this column goes on with the column of the line before.
    pub fn goes_on(&self, column: &[u8]) -> bool
        ensures { result ≡ option_eq bytes_eq self.now.column (Some column.now) }
    {
        match self.column {
            Some(last) => last == column,
            None => false,
        }
    }

    /// Whether a line that names this set is used. The section's first line is, and its set is kept.
    pub fn take_set(&mut self, set: Option<&'b [u8]>) -> bool
        ensures used { result ≡ is_used self.old (option_copied set.entry) }
        ensures kept { self.new ≡ record self.old { used = option_or self.old.used (Some (option_copied set.entry)) } }
    {
        match self.used {
            Some(used) => is_same(used, set),
            None => {
                self.used = Some(set);
                true
            }
        }
    }

    /// Goes on with whether members of the last set have weights.
    pub fn keep_weights(&mut self, weights: Option<bool>)
        ensures { self.new ≡ record self.old { weights = weights } }
    {
        self.weights = weights;
    }
}

/// Whether both name the same set, or none.
fn is_same(used: Option<&[u8]>, set: Option<&[u8]>) -> bool
    ensures { result ≡ option_eq bytes_eq (option_copied used.entry) (option_copied set.entry) }
{
    match (used, set) {
        (Some(used), Some(set)) => used == set,
        (None, None) => true,
        _ => false,
    }
}
