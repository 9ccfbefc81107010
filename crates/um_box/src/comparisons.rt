//! Ends compared with each other and with numbers, without overflow.

ghost use Rattle.std.specs.Prelude.{◌≡◌, pos, ◌+ℤ◌, ◌*ℤ◌, ◌<ℤ◌, ◌↔◌, Some, IsTrue, IsSomeAnd};

/// Whether the high end is below the low end.
pub(crate) fn is_crossed(low: Option<i64>, high: Option<i64>) -> bool
    ensures { IsTrue result ↔ IsSomeAnd low (λ l. IsSomeAnd high (λ h. h <ℤ l)) }
{
    match (low, high) {
        (Some(low), Some(high)) => high < low,
        _ => false,
    }
}

/// Whether the end is there and below a number, in thousandths.
pub(crate) fn is_below(end: Option<i64>, number: i64) -> bool
    ensures { IsTrue result ↔ IsSomeAnd end (λ e. e <ℤ number) }
{
    match end {
        Some(end) => end < number,
        None => false,
    }
}

/// Whether the end is there and above a number, in thousandths.
pub(crate) fn is_above(end: Option<i64>, number: i64) -> bool
    ensures { IsTrue result ↔ IsSomeAnd end (λ e. number <ℤ e) }
{
    match end {
        Some(end) => number < end,
        None => false,
    }
}

/// Whether the end is there and below the whole number that comes next.
pub(crate) fn is_below_next(end: Option<i64>, whole: i64) -> bool
    ensures { IsTrue result ↔ IsSomeAnd end (λ e. e <ℤ (pos 1000 *ℤ (whole +ℤ pos 1))) }
{
    match end {
        Some(end) => i128::from(end) < next_in_thousandths(whole),
        None => false,
    }
}

/// The whole number that comes next, in thousandths.
fn next_in_thousandths(whole: i64) -> i128
    ensures { result ≡ pos 1000 *ℤ (whole +ℤ pos 1) }
{
    1000 * (i128::from(whole) + 1)
}

/// Whether the end is there and above a whole number.
pub(crate) fn is_above_whole(end: Option<i64>, whole: i64) -> bool
    ensures { IsTrue result ↔ IsSomeAnd end (λ e. (pos 1000 *ℤ whole) <ℤ e) }
{
    match end {
        Some(end) => 1000 * i128::from(whole) < i128::from(end),
        None => false,
    }
}

/// Whether the end is 0.
pub(crate) fn is_zero(end: Option<i64>) -> bool
    ensures { IsTrue result ↔ (end ≡ Some (pos 0)) }
{
    match end {
        Some(end) => end == 0,
        None => false,
    }
}
