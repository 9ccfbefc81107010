//! Numerals with a point.

ghost use Rattle.std.specs.Prelude.{◌≡◌, ◌∷◌, ◌++◌, [], ◌+◌, ◌/◌, ◌%◌, ◌^◌, decimal, OnOk};
ghost use Rattle.um_text.specs.Texts.{line_rest};
ghost use Rattle.um_make.specs.Numerals.{last_digits, numeral, size_numeral};

use um_num::Memory;
use um_text::Text;

/// The numeral of a number over ten to the scale as the last word of a line.
pub(crate) fn put_last_numeral(text: &mut Text, scale: u8, number: i128) -> Result<(), Memory>
    ensures { OnOk result (text.new ≡ text.old ++ line_rest (numeral scale number ∷ [])) }
{
    text.put(b" ")?;
    put_numeral(text, scale, number)?;
    text.end_line()
}

/// The numeral of a number over ten to the scale.
#[tactic(auto, using(crate::proofs::SizeNumerals::from_zero_on))]
fn put_numeral(text: &mut Text, scale: u8, number: i128) -> Result<(), Memory>
    ensures { OnOk result (text.new ≡ text.old ++ numeral scale number) }
{
    if number >= 0 {
        return put_size(text, scale, number.unsigned_abs());
    }
    text.put(b"-")?;
    put_size(text, scale, number.unsigned_abs())
}

/// The numeral of a size over ten to the scale: zeros at the end of its decimals are left out one by one.
fn put_size(text: &mut Text, scale: u8, size: u128) -> Result<(), Memory>
    ensures { OnOk result (text.new ≡ text.old ++ size_numeral scale size) }
{
    if scale == 0 {
        return text.count(size);
    }
    if size % 10 == 0 {
        return put_size(text, scale - 1, size / 10);
    }
    put_pointed(text, scale, size)
}

/// The digits of a size with a point before the last of them, as many as there are decimals.
fn put_pointed(text: &mut Text, decimals: u8, size: u128) -> Result<(), Memory>
    ensures { OnOk result (text.new ≡ text.old ++ (decimal (size / 10 ^ decimals) ++ 46 ∷ last_digits decimals size)) }
{
    if decimals == 0 {
        text.count(size)?;
        return text.put(b".");
    }
    put_pointed(text, decimals - 1, size / 10)?;
    text.put(&[last_digit(size)])
}

/// The byte of the last digit.
fn last_digit(size: u128) -> u8
    ensures { result ≡ 48 + size % 10 }
{
    b'0' + (size % 10) as u8
}
