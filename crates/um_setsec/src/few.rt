//! The words of a line, by their number.

ghost use Rattle.std.specs.Prelude.{◌≡◌, [], slice_index_or};
ghost use Rattle.um_setsec.specs.Few.{AreWords};

use um_text::Words;

/// The words of a line that has one to five.
#[derive(Clone, Copy, Debug)]
pub enum Few<'b> {
    One(&'b [u8]),
    Two(&'b [u8], &'b [u8]),
    Three(&'b [u8], &'b [u8], &'b [u8]),
    Four(&'b [u8], &'b [u8], &'b [u8], &'b [u8]),
    Five(&'b [u8], &'b [u8], &'b [u8], &'b [u8], &'b [u8]),
    /// Another number of words.
    Other,
}

/// The words of a line.
pub fn few_of<'b>(words: &Words<'b>) -> Few<'b>
    ensures { AreWords words.now result }
{
    match words.len() {
        1 => Few::One(word(words, 0)),
        2 => Few::Two(word(words, 0), word(words, 1)),
        3 => Few::Three(word(words, 0), word(words, 1), word(words, 2)),
        4 => Few::Four(
            word(words, 0),
            word(words, 1),
            word(words, 2),
            word(words, 3),
        ),
        5 => Few::Five(
            word(words, 0),
            word(words, 1),
            word(words, 2),
            word(words, 3),
            word(words, 4),
        ),
        _ => Few::Other,
    }
}

/// The word at this place; an empty one where there is none.
pub fn word<'b>(words: &Words<'b>, at: usize) -> &'b [u8]
    ensures { result.now ≡ slice_index_or words.now at [] }
{
    match words.get(at) {
        Some(word) => word,
        None => &[],
    }
}
