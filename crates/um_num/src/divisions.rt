//! Quotients of whole numbers. Most numbers are short, and a division in 64 bits costs a fraction of
//! what one in 128 bits does.

ghost use Rattle.std.specs.Prelude.{
  ◌≡◌,
  ◌≤◌,
  pos,
  ◌+ℤ◌,
  ◌*ℤ◌,
  ◌≤ℤ◌,
  ◌<ℤ◌,
  unsigned_abs,
  int_div,
};
ghost use Rattle.std.specs.Int.{◌∣◌, int_div_euclid};
ghost use Rattle.um_num.specs.Numbers.{IsInRange};

/// A number over one of its divisors.
pub fn part(a: i128, divisor: i128) -> i128
    requires positive { pos 1 ≤ℤ divisor }
    requires divides { unsigned_abs divisor ∣ unsigned_abs a }
    ensures quotient { result ≡ int_div a divisor }
    ensures value { result *ℤ divisor ≡ a }
    ensures size { unsigned_abs result ≤ unsigned_abs a }
{
    match (i64::try_from(a), i64::try_from(divisor)) {
        (Ok(x), Ok(y)) => i128::from(short_quotient(x, y)),
        _ => long_quotient(a, divisor),
    }
}

/// `a` over `b`, towards 0.
fn short_quotient(a: i64, b: i64) -> i64
    requires { pos 1 ≤ℤ b }
    ensures { result ≡ int_div a b }
{
    a / b
}

/// The same in 128 bits.
fn long_quotient(a: i128, b: i128) -> i128
    requires { pos 1 ≤ℤ b }
    ensures { result ≡ int_div a b }
{
    a / b
}

/// The greatest whole number that is at most `a` over `b`.
pub fn floor_div(a: i128, b: i128) -> i128
    requires a_in { IsInRange a }
    requires b_in { IsInRange b }
    requires positive { pos 1 ≤ℤ b }
    ensures value { result ≡ int_div_euclid a b }
    ensures low { (result *ℤ b) ≤ℤ a }
    ensures high { a <ℤ ((result +ℤ pos 1) *ℤ b) }
    ensures range { IsInRange result }
{
    match (i64::try_from(a), i64::try_from(b)) {
        (Ok(x), Ok(y)) => i128::from(short_floor(x, y)),
        _ => long_floor(a, b),
    }
}

/// The greatest whole number that is at most `a` over `b`.
fn short_floor(a: i64, b: i64) -> i64
    requires { pos 1 ≤ℤ b }
    ensures { result ≡ int_div_euclid a b }
{
    a.div_euclid(b)
}

/// The same in 128 bits.
fn long_floor(a: i128, b: i128) -> i128
    requires { pos 1 ≤ℤ b }
    ensures { result ≡ int_div_euclid a b }
{
    a.div_euclid(b)
}
