//! The values of options: which words stand for them.

ghost use Rattle.std.specs.Prelude.{◌≡◌, ◌≤◌, option_map, IfSome};
ghost use Rattle.um_words.specs.Values.{number_asked, number_word};

use um_text::whole;

/// The number that is asked for, which is the most where none is named. None is out of range.
pub(crate) fn number_asked(word: Option<&str>, most: u64) -> Option<u64>
    requires { 1 ≤ most }
    ensures number { result ≡ number_asked most (option_map (λ word. word.now) word.entry) }
    ensures range { IfSome result (λ number. number ≤ most) }
{
    match word {
        Some(word) => number_word(word, most),
        None => Some(most),
    }
}

/// The number of a whole numeral, where it is from 1 to the most.
fn number_word(word: &str, most: u64) -> Option<u64>
    ensures number { result ≡ number_word most word.now }
    ensures range { IfSome result (λ number. number ≤ most) }
{
    match whole(word.as_bytes()) {
        Ok(number) if 1 <= number && number <= i128::from(most) => Some(number as u64),
        _ => None,
    }
}
