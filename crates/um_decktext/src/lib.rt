//! Which deck a text is, and which rule it breaks where it is none: definitions alone, without a reader.
//!
//! `specs/` says how a text is cut into lines, what each line says behind the lines before it, and which of the rules
//! that are broken comes first. The only code is [`Section`], the sections of a deck's text, which these definitions and
//! a reader have in common. A caller may rest on every text being that of one deck or breaking one rule first, which
//! `um_mps` proves. What surprises: what a line says hangs on the lines before it.
#![tactic(auto)]

mod section;

pub use section::Section;
