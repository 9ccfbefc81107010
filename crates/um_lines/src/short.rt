//! Sums of rows of 64-bit numbers over what divides them.

ghost use Rattle.std.specs.Prelude.{◌≡◌, ℕ, ◌<◌, ◌≤◌, ◌^◌, ◌%◌, ◌*◌, ◌+◌, ◌+ℤ◌, ◌*ℤ◌, pos, length, unsigned_abs, IfSome, IsTrue, ◌↔◌};
ghost use Rattle.std.specs.Option.{IsSome};
ghost use Rattle.std.specs.Int.{int_shr, int_wrap, w64};
ghost use Rattle.um_lines.specs.Lines.{whole_at};
ghost use Rattle.um_lines.specs.Turns.{turned, IsTurns, IsTopOver, AreWithin};

/// A number as an odd one times a power of 2.
#[derive(Clone, Copy, Debug)]
pub struct Split {
    pub odd: u64,
    pub shift: u32,
}

/// What the numbers of two rows are multiplied by, up to multiples of 2^64, for their sum over a divisor.
#[derive(Clone, Copy, Debug)]
pub struct Turns {
    pub own: i64,
    pub other: i64,
    /// The divisor, which is odd times a power of 2.
    pub odd: i64,
    pub shift: u32,
}

/// The number, split.
fn split_of(number: u64) -> Option<Split>
    ensures value { IfSome result (λ split. split.odd * 2 ^ split.shift ≡ number) }
    ensures shift { IfSome result (λ split. split.shift < 64) }
{
    let shift = number.trailing_zeros() % 64;
    let odd = number >> shift;
    if odd << shift == number {
        Some(Split { odd, shift })
    } else {
        None
    }
}

/// One over an odd number, up to multiples of 2^64. No contract speaks of it: what it gives is tried.
fn inverse_of(odd: i64) -> i64 {
    // Each step doubles the number of bits that are right, from 3 on.
    let mut inverse = odd;
    for _ in 0..5 {
        inverse = inverse.wrapping_mul(2i64.wrapping_sub(odd.wrapping_mul(inverse)));
    }
    inverse
}

/// What a number is multiplied by in place of a factor over an odd divisor.
fn turn_of(factor: i64, odd: i64, inverse: i64) -> Option<i64>
    ensures { IfSome result (λ turn. int_wrap w64 (turn *ℤ odd) ≡ factor) }
{
    let turn = factor.wrapping_mul(inverse);
    let back = turn.wrapping_mul(odd);
    if back == factor { Some(turn) } else { None }
}

/// What rows are multiplied by for a sum over a divisor, each row times its factor.
pub fn turns_of(own: i64, other: i64, divisor: u64) -> Option<Turns>
    ensures { IfSome result (IsTurns own other divisor) }
{
    let split = split_of(divisor)?;
    let Ok(odd) = i64::try_from(split.odd) else {
        return None;
    };
    let inverse = inverse_of(odd);
    let turned_own = turn_of(own, odd, inverse)?;
    let turned_other = turn_of(other, odd, inverse)?;
    Some(Turns {
        own: turned_own,
        other: turned_other,
        odd,
        shift: split.shift,
    })
}

/// The sum of two numbers, each times its factor, up to multiples of 2^64.
#[inline]
pub fn wrapped_sum(own_factor: i64, other_factor: i64, own: i64, other: i64) -> i64
    ensures { result ≡ int_wrap w64 ((own *ℤ own_factor) +ℤ (other *ℤ other_factor)) }
{
    let left = own.wrapping_mul(own_factor);
    let right = other.wrapping_mul(other_factor);
    left.wrapping_add(right)
}

/// The same, each times its turn.
#[inline]
pub fn turned_sum(turns: &Turns, own: i64, other: i64) -> i64
    ensures { result ≡ turned turns.now own other }
{
    wrapped_sum(turns.own, turns.other, own, other)
}

/// Writes the sums of two rows, each times its turn, and gives a bound of their sizes.
fn combine_odd(turns: &Turns, own: &[i64], other: &[i64], out: &mut [i64]) -> u64
    requires other_fits { length other.now ≡ length own.now }
    requires out_fits { length out.old ≡ length own.now }
    ensures value { (j : ℕ) → j < length own.now → whole_at out.new j ≡ turned turns.now (whole_at own.now j) (whole_at other.now j) }
    ensures sizes { (j : ℕ) → j < length own.now → unsigned_abs (turned turns.now (whole_at own.now j) (whole_at other.now j)) ≤ result }
{
    let mut sizes = 0;
    for j in 0..own.len() {
        let sum = turned_sum(turns, own[j], other[j]);
        out[j] = sum;
        sizes |= sum.unsigned_abs();
    }
    sizes
}

/// The same where the own row is taken once: where the other row has 0, nothing is written.
fn combine_added(turns: &Turns, own: &[i64], own_top: u64, other: &[i64], out: &mut [i64]) -> u64
    requires own_once { turns.now.own ≡ pos 1 }
    requires own_within { AreWithin own_top own.now }
    requires other_fits { length other.now ≡ length own.now }
    requires out_fits { length out.old ≡ length own.now }
    ensures value { (j : ℕ) → j < length own.now → whole_at out.new j ≡ turned turns.now (whole_at own.now j) (whole_at other.now j) }
    ensures sizes { (j : ℕ) → j < length own.now → unsigned_abs (turned turns.now (whole_at own.now j) (whole_at other.now j)) ≤ result }
{
    out.copy_from_slice(own);
    let mut sizes = own_top;
    for j in 0..own.len() {
        let num = own[j];
        let step = other[j];
        if is_zero(step) {
            continue;
        }
        let sum = turned_sum(turns, num, step);
        out[j] = sum;
        sizes |= sum.unsigned_abs();
    }
    sizes
}

#[inline]
fn is_zero(num: i64) -> bool
    ensures { IsTrue result → num ≡ pos 0 }
{
    num == 0
}

/// Writes the sums of two rows, each times its turn, without the factors of 2, and gives a bound of
/// their sizes that has no more of those factors than each.
fn combine_shifted(turns: &Turns, own: &[i64], other: &[i64], out: &mut [i64]) -> u64
    requires shift { turns.now.shift < 64 }
    requires other_fits { length other.now ≡ length own.now }
    requires out_fits { length out.old ≡ length own.now }
    ensures value { (j : ℕ) → j < length own.now → whole_at out.new j ≡ int_shr (turned turns.now (whole_at own.now j) (whole_at other.now j)) turns.now.shift }
    ensures sizes { (j : ℕ) → j < length own.now → unsigned_abs (turned turns.now (whole_at own.now j) (whole_at other.now j)) ≤ result }
    ensures even { (j : ℕ) → j < length own.now → result % 2 ^ turns.now.shift ≡ 0 → unsigned_abs (turned turns.now (whole_at own.now j) (whole_at other.now j)) % 2 ^ turns.now.shift ≡ 0 }
{
    let mut sizes = 0;
    for j in 0..own.len() {
        let sum = turned_sum(turns, own[j], other[j]);
        out[j] = sum >> turns.shift;
        sizes |= sum.unsigned_abs();
    }
    sizes
}

/// The same. Without factors of 2 there is less to do for each number, and least where the own row is
/// taken once.
pub fn combine_turned(
    turns: &Turns,
    own: &[i64],
    own_top: u64,
    other: &[i64],
    out: &mut [i64],
) -> u64
    requires shift { turns.now.shift < 64 }
    requires own_within { AreWithin own_top own.now }
    requires other_fits { length other.now ≡ length own.now }
    requires out_fits { length out.old ≡ length own.now }
    ensures value { (j : ℕ) → j < length own.now → whole_at out.new j ≡ int_shr (turned turns.now (whole_at own.now j) (whole_at other.now j)) turns.now.shift }
    ensures sizes { (j : ℕ) → j < length own.now → unsigned_abs (turned turns.now (whole_at own.now j) (whole_at other.now j)) ≤ result }
    ensures even { (j : ℕ) → j < length own.now → result % 2 ^ turns.now.shift ≡ 0 → unsigned_abs (turned turns.now (whole_at own.now j) (whole_at other.now j)) % 2 ^ turns.now.shift ≡ 0 }
{
    if turns.shift != 0 {
        combine_shifted(turns, own, other, out)
    } else if turns.own != 1 {
        combine_odd(turns, own, other, out)
    } else {
        combine_added(turns, own, own_top, other, out)
    }
}

/// Whether each sum of two numbers within these sizes, each times its factor, has 64 bits.
pub fn are_sums_short(own: i64, own_top: u64, other: i64, other_top: u64) -> bool
    ensures { IsTrue result ↔ own_top * unsigned_abs own + other_top * unsigned_abs other < 2 ^ 63 }
{
    let left = u128::from(own_top) * u128::from(own.unsigned_abs());
    let right = u128::from(other_top) * u128::from(other.unsigned_abs());
    left < 1 << 63 && right < 1 << 63 && left + right < 1 << 63
}

/// The size of the quotients, where they are exact.
pub fn top_over(turns: &Turns, sizes: u64) -> Option<u64>
    requires { turns.now.shift < 64 }
    ensures value { IfSome result (IsTopOver turns.now sizes) }
    ensures taken { sizes % 2 ^ turns.now.shift ≡ 0 → sizes * unsigned_abs turns.now.odd < 2 ^ 63 → sizes < 2 ^ 63 → IsSome result }
{
    let top = sizes >> turns.shift;
    let whole = u128::from(sizes) * u128::from(turns.odd.unsigned_abs());
    if top << turns.shift == sizes && top < 1 << 63 && whole < 1 << 63 {
        Some(top)
    } else {
        None
    }
}
