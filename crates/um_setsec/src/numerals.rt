//! The numerals of lines.

ghost use Rattle.std.specs.Prelude.{◌≡◌, IfOk};
ghost use Rattle.um_statements.specs.WellSaid.{IsNumber};
ghost use Rattle.um_decktext.specs.Numbers.{number as number_of};

use um_maker::Fault;
use um_num::Decimal;
use um_text::{NumberFault, decimal};

/// The number of a numeral. Faults: `BadNumber` where the word is none; `TooWide` where it is out of range.
pub fn number(word: &[u8]) -> Result<Decimal, Fault>
    ensures value { result ≡ number_of word.now }
    ensures number { IfOk result IsNumber }
{
    match decimal(word) {
        Ok(value) => Ok(value),
        Err(NumberFault::NotNumber) => Err(Fault::BadNumber),
        Err(NumberFault::TooWide) => Err(Fault::TooWide),
    }
}
