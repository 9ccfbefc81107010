//! What the denominator and the numbers of a sum of rows have in common, from the first few sums.

ghost use Rattle.std.specs.Prelude.{◌≡◌, ℕ, ◌<◌, ◌≤◌, ◌^◌, pos, ◌+ℤ◌, ◌*ℤ◌, ◌≤ℤ◌, length, unsigned_abs, IfSome};
ghost use Rattle.std.specs.Option.{IsSome};
ghost use Rattle.std.specs.Int.{◌∣◌, int_wrap, w64};
ghost use Rattle.um_num.specs.Numbers.{IsInRange};
ghost use Rattle.um_lines.specs.Combined.{sum_at, IsGuess};
ghost use Rattle.um_lines.specs.Turns.{AreWithin, wrapped_at};

use crate::products::{ShortFactors, short_combination};
use crate::quotients::shared_by;
use crate::short::{are_sums_short, wrapped_sum};
use um_num::short_gcd;

/// What divides a denominator and the sums so far, and in how many of the last it did not change.
#[derive(Clone, Copy, Debug)]
struct Guess {
    shared: u64,
    same: usize,
}

/// The guess after one more sum.
#[inline]
fn next_guess(guess: Guess, sum: i64) -> Guess
    requires { 1 ≤ guess.shared }
    ensures positive { 1 ≤ result.shared }
    ensures divides { result.shared ∣ guess.shared }
    ensures greatest { (d : ℕ) → d ∣ guess.shared → d ∣ unsigned_abs sum → d ∣ result.shared }
{
    let size = sum.unsigned_abs();
    if size == 0 {
        return guess;
    }
    if size % guess.shared == 0 {
        return Guess {
            shared: guess.shared,
            same: guess.same.saturating_add(1),
        };
    }
    Guess {
        shared: short_gcd(guess.shared, size),
        same: 0,
    }
}

/// A guess needs no further sum where nothing is shared, or after so many in which it did not change.
#[inline]
fn is_sure(is_one: bool, same: usize, enough: usize) -> bool {
    is_one || enough <= same
}

/// What the denominator has in common with so many of the sums that nothing changed `enough` times, if
/// all sums have 64 bits.
fn guess_short(den: u64, factors: &ShortFactors, own: &[i64], other: &[i64], enough: usize) -> u64
    requires positive { 1 ≤ den }
    requires other_fits { length other.now ≡ length own.now }
    ensures positive { 1 ≤ result }
    ensures divides { result ∣ den }
    ensures greatest { (d : ℕ) → d ∣ den → ((j : ℕ) → j < length own.now → d ∣ unsigned_abs (wrapped_at factors.now.own factors.now.other own.now other.now j)) → d ∣ result }
{
    let mut guess = Guess {
        shared: den,
        same: 0,
    };
    for j in 0..own.len() {
        if is_sure(guess.shared == 1, guess.same, enough) {
            return guess.shared;
        }
        let sum = wrapped_sum(factors.own, factors.other, own[j], other[j]);
        guess = next_guess(guess, sum);
    }
    guess.shared
}

/// The same for sums of any size.
#[derive(Clone, Copy, Debug)]
struct LongGuess {
    shared: i128,
    same: usize,
}

/// The guess after one more sum.
fn next_long_guess(guess: LongGuess, sum: i128) -> LongGuess
    requires positive { pos 1 ≤ℤ guess.shared }
    requires shared_in { IsInRange guess.shared }
    requires sum_in { IsInRange sum }
    ensures positive { pos 1 ≤ℤ result.shared }
    ensures range { IsInRange result.shared }
    ensures divides { unsigned_abs result.shared ∣ unsigned_abs guess.shared }
    ensures greatest { (d : ℕ) → d ∣ unsigned_abs guess.shared → d ∣ unsigned_abs sum → d ∣ unsigned_abs result.shared }
{
    if sum == 0 {
        return guess;
    }
    let shared = shared_by(guess.shared, sum);
    if shared == guess.shared {
        return LongGuess {
            shared,
            same: guess.same.saturating_add(1),
        };
    }
    LongGuess { shared, same: 0 }
}

/// What the denominator has in common with so many of the sums that nothing changed `enough` times.
fn guess_long(den: i128, factors: &ShortFactors, own: &[i64], other: &[i64], enough: usize) -> i128
    requires positive { pos 1 ≤ℤ den }
    requires den_in { IsInRange den }
    requires other_fits { length other.now ≡ length own.now }
    ensures { IsGuess den (sum_at factors.now.own factors.now.other own.now other.now) (length own.now) result }
{
    let mut guess = LongGuess {
        shared: den,
        same: 0,
    };
    for j in 0..own.len() {
        if is_sure(guess.shared == 1, guess.same, enough) {
            return guess.shared;
        }
        let sum = short_combination(factors, own[j], other[j]);
        guess = next_long_guess(guess, sum);
    }
    guess.shared
}

/// The number in 64 bits, where it is not below 0 and fits.
pub fn short_size(number: i128) -> Option<u64>
    ensures value { IfSome result (λ size. pos size ≡ number) }
    ensures taken { pos 0 ≤ℤ number → unsigned_abs number < 2 ^ 64 → IsSome result }
{
    match u64::try_from(number) {
        Ok(size) => Some(size),
        Err(_) => None,
    }
}

/// What the denominator of a sum of rows has in common with so many of the sums that nothing changed
/// `enough` times. It mostly divides all of them.
pub fn guess_divisor(
    den: i128,
    factors: &ShortFactors,
    own: &[i64],
    own_top: u64,
    other: &[i64],
    other_top: u64,
    enough: usize,
) -> i128
    requires positive { pos 1 ≤ℤ den }
    requires den_in { IsInRange den }
    requires own_within { AreWithin own_top own.now }
    requires other_within { AreWithin other_top other.now }
    requires other_fits { length other.now ≡ length own.now }
    ensures { IsGuess den (sum_at factors.now.own factors.now.other own.now other.now) (length own.now) result }
{
    let are_short = are_sums_short(factors.own, own_top, factors.other, other_top);
    match short_size(den) {
        Some(size) if are_short => { i128::from(guess_short(size, factors, own, other, enough)) }
        _ => guess_long(den, factors, own, other, enough),
    }
}
