//! Headings of sections.

ghost use Rattle.std.specs.Prelude.{◌≡◌, [], ◌∷◌, None, Ok, OnOk, Some, false, is_none};
ghost use Rattle.std.specs.Option.{option_and_then, option_map_or};
ghost use Rattle.um_statements.specs.CallRules.{faults_in, first_fault, with_all};
ghost use Rattle.um_statements.specs.Statements.{Sense};
ghost use Rattle.um_statements.specs.Tells.{TellsAll};
ghost use Rattle.um_decktext.specs.LineWords.{sense_called};
ghost use Rattle.um_decktext.specs.LinesSay.{heading_line, heading_rules, heading_statements, second_word};
ghost use Rattle.um_mps.specs.Behind.{behind_heading};

use crate::place::Place;
use crate::rows::sense_called;
use um_decktext::Section;
use um_maker::{DeckMaker, Fault};
use um_setsec::word;
use um_text::Words;

/// Whether a second word is there that is no sense.
fn has_no_sense(words: &Words<'_>) -> bool
    ensures { result ≡ option_map_or (λ w. is_none (sense_called w)) (second_word words.now) false }
{
    match words.get(1) {
        Some(word) => sense_called(word).is_none(),
        None => false,
    }
}

/// The first rule that a heading of this section breaks.
fn heading_fault(place: &Place<'_>, section: Section, words: &Words<'_>) -> Option<Fault>
    ensures { result ≡ first_fault (heading_rules place.now (Some section) words.now) }
{
    if !place.may_enter(section) {
        return Some(Fault::SectionOrder);
    }
    if section.is(Section::Objsense) && has_no_sense(words) {
        return Some(Fault::UnknownKind);
    }
    if section.is(Section::Columns) && !place.has_objective {
        return Some(Fault::NoObjective);
    }
    if place.in_block {
        return Some(Fault::Marker);
    }
    None
}

/// The sense that a second word says, if it says one.
fn sense_told(words: &Words<'_>) -> Option<bool>
    ensures { result ≡ option_and_then sense_called (second_word words.now) }
{
    match words.get(1) {
        Some(word) => sense_called(word),
        None => None,
    }
}

/// Tells a maker of the sense, if one is told.
#[tactic(auto, unfolding(um_statements::specs::CallRules::rules_of))]
fn tell_sense(maker: &mut DeckMaker, sense: Option<bool>)
    ensures fine { faults_in maker.old (option_map_or (λ maximise. Sense maximise ∷ []) sense []) ≡ None }
    ensures told { maker.new ≡ with_all (option_map_or (λ maximise. Sense maximise ∷ []) sense []) maker.old }
{
    if let Some(maximise) = sense {
        maker.sense(maximise);
    }
}

/// Tells a maker what a heading of this section says: the deck's name, or its sense.
fn tell_heading(maker: &mut DeckMaker, section: Section, words: &Words<'_>) -> Result<(), Fault>
    ensures { TellsAll (Ok (heading_statements (Some section) words.now)) maker.old result maker.new }
{
    match section {
        Section::Name => maker.name(word(words, 1)),
        Section::Objsense => {
            tell_sense(maker, sense_told(words));
            Ok(())
        }
        _ => Ok(()),
    }
}

/// The heading of a section.
pub fn heading_line(
    maker: &mut DeckMaker,
    place: &mut Place<'_>,
    words: &Words<'_>,
) -> Result<(), Fault>
    ensures told { TellsAll (heading_line place.old words.now) maker.old result maker.new }
    ensures place { OnOk result (place.new ≡ behind_heading words.now place.old) }
{
    let Some(section) = Section::called(word(words, 0)) else {
        return Err(Fault::UnknownSection);
    };
    if let Some(fault) = heading_fault(place, section, words) {
        return Err(fault);
    }
    match tell_heading(maker, section, words) {
        Ok(()) => {
            place.enter(section);
            Ok(())
        }
        Err(fault) => Err(fault),
    }
}
