//! The law that the bytes which are read as an answer are those that are written for it.
//!
//! Nothing runs here. What surprises: a deck's name may hold a CR, as only a blank, a tab and LF part words
//! and lines.
#![tactic(auto)]

ghost use Rattle.um_treetext.specs.ReadLaws.{WrittenLaw};

/// The bytes that are an answer's text are those that are written for it, where it can be written; an
/// answer that cannot be written is read from no bytes.
pub fn written_law()
    ensures { WrittenLaw }
{}
