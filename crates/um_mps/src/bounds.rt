//! Lines of BOUNDS.

ghost use Rattle.std.specs.Prelude.{◌≡◌, IfSome, None, OnOk, Some, false, is_some, true};
ghost use Rattle.um_statements.specs.Said.{makes_semi};
ghost use Rattle.um_statements.specs.Tells.{TellsAll, needs_value};
ghost use Rattle.um_decktext.specs.Words.{first_word};
ghost use Rattle.um_decktext.specs.LineWords.{bare_bound, valued_bound};
ghost use Rattle.um_decktext.specs.LinesSay.{bound_line, bound_says};
ghost use Rattle.um_mps.specs.Bounds.{AreBoundWords, IsBound};
ghost use Rattle.um_mps.specs.Behind.{behind_bound};

use crate::place::Place;
use um_maker::{BoundKind, DeckMaker, Fault};
use um_setsec::{Few, few_of, number, semi_line, word};
use um_text::Words;

/// The words of a bound.
#[derive(Clone, Copy, Debug)]
pub struct BoundWords<'b> {
    pub kind: BoundKind,
    /// The set that the line names, if any.
    pub set: Option<&'b [u8]>,
    pub column: &'b [u8],
    /// There exactly where the kind needs a value.
    pub value: Option<&'b [u8]>,
}

/// The kinds of bounds that need a value.
fn valued_bound(word: &[u8]) -> Option<BoundKind>
    ensures kind { result ≡ valued_bound word.now }
    ensures needed { IfSome result (λ kind. needs_value kind ≡ true) }
{
    if word == b"UP".as_slice() {
        Some(BoundKind::Up)
    } else if word == b"LO".as_slice() {
        Some(BoundKind::Lo)
    } else if word == b"FX".as_slice() {
        Some(BoundKind::Fx)
    } else if word == b"LI".as_slice() {
        Some(BoundKind::Li)
    } else if word == b"UI".as_slice() {
        Some(BoundKind::Ui)
    } else if word == b"SC".as_slice() {
        Some(BoundKind::Sc)
    } else {
        None
    }
}

/// The kinds of bounds that need none.
fn bare_bound(word: &[u8]) -> Option<BoundKind>
    ensures kind { result ≡ bare_bound word.now }
    ensures bare { IfSome result (λ kind. needs_value kind ≡ false) }
{
    if word == b"FR".as_slice() {
        Some(BoundKind::Fr)
    } else if word == b"MI".as_slice() {
        Some(BoundKind::Mi)
    } else if word == b"PL".as_slice() {
        Some(BoundKind::Pl)
    } else if word == b"BV".as_slice() {
        Some(BoundKind::Bv)
    } else {
        None
    }
}

fn is_semi(kind: BoundKind) -> bool
    ensures { result ≡ makes_semi kind }
{
    match kind {
        BoundKind::Sc => true,
        _ => false,
    }
}

/// The words of a bound with a value.
fn with_value<'b>(kind: BoundKind, words: &Words<'b>) -> Result<BoundWords<'b>, Fault>
    requires kind { valued_bound (first_word words.now) ≡ Some kind }
    requires needed { needs_value kind ≡ true }
    ensures { AreBoundWords words.now result }
{
    let (set, column, value) = match few_of(words) {
        Few::Three(_, column, value) => (None, column, value),
        Few::Four(_, set, column, value) => (Some(set), column, value),
        _ => return Err(Fault::BadWords),
    };
    Ok(BoundWords {
        kind,
        set,
        column,
        value: Some(value),
    })
}

/// The words of a bound without a value. A fourth word is skipped.
fn without_value<'b>(kind: BoundKind, words: &Words<'b>) -> Result<BoundWords<'b>, Fault>
    requires none { valued_bound (first_word words.now) ≡ None }
    requires kind { bare_bound (first_word words.now) ≡ Some kind }
    requires bare { needs_value kind ≡ false }
    ensures { AreBoundWords words.now result }
{
    match few_of(words) {
        Few::Two(_, column) => Ok(bare(kind, None, column)),
        Few::Three(_, set, column) => Ok(bare(kind, Some(set), column)),
        Few::Four(_, set, column, _) => Ok(bare(kind, Some(set), column)),
        _ => Err(Fault::BadWords),
    }
}

fn bare<'b>(kind: BoundKind, set: Option<&'b [u8]>, column: &'b [u8]) -> BoundWords<'b>
    ensures { result ≡ record { kind = kind; set = set.entry; column = column.entry; value = None } }
{
    BoundWords {
        kind,
        set,
        column,
        value: None,
    }
}

/// The words of a line of BOUNDS, whatever set it names.
fn bound_words<'b>(words: &Words<'b>) -> Result<BoundWords<'b>, Fault>
    ensures { AreBoundWords words.now result }
{
    if words.len() < 2 || words.len() > 4 {
        return Err(Fault::BadWords);
    }
    let kind = word(words, 0);
    if let Some(kind) = valued_bound(kind) {
        return with_value(kind, words);
    }
    match bare_bound(kind) {
        Some(kind) => without_value(kind, words),
        None => Err(Fault::UnknownKind),
    }
}

/// Tells a maker of the bound of a line, whose words these are.
fn tell_bound(maker: &mut DeckMaker, words: &Words<'_>, bound: &BoundWords<'_>) -> Result<(), Fault>
    requires { IsBound words.now bound.now }
    ensures { TellsAll (bound_says words.now) maker.old result maker.new }
{
    if is_semi(bound.kind) {
        return semi_line(maker, words, bound.set.is_some());
    }
    match bound.value {
        Some(word) => {
            let value = number(word)?;
            maker.bound(bound.kind, bound.column, Some(&value))
        }
        None => maker.bound(bound.kind, bound.column, None),
    }
}

/// A line of BOUNDS.
pub fn bound_line<'b>(
    maker: &mut DeckMaker,
    place: &mut Place<'b>,
    words: &Words<'b>,
) -> Result<(), Fault>
    ensures told { TellsAll (bound_line place.old words.now) maker.old result maker.new }
    ensures place { OnOk result (place.new ≡ behind_bound words.now place.old) }
{
    match bound_words(words) {
        Ok(bound) => {
            if !place.take_set(bound.set) {
                return Ok(());
            }
            tell_bound(maker, words, &bound)
        }
        Err(fault) => Err(fault),
    }
}
