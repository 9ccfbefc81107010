//! Numbers over a denominator, compared without division.

ghost use Rattle.std.specs.Prelude.{◌≡◌, ◌^◌, ◌*ℤ◌, ◌≤ℤ◌, ◌⊎◌, pos, Option, IsTrue, ◌↔◌};
ghost use Rattle.std.specs.Option.{ForSome};
ghost use Rattle.um_model.specs.WellFormed.{IsWithin};
ghost use Rattle.um_model.specs.Feasible.{Between, IsMultipleOf};
ghost use Rattle.um_model.specs.declared.limits.TheConstants.{MOST_SIDE};

/// A number as a numerator over a denominator. It is compared with sides and ends, which all lie within the limit of
/// a row's side.
#[derive(Clone, Copy)]
pub struct Quotient {
    pub num: i128,
    pub den: i128,
}

impl Quotient {
    /// A number times the denominator.
    pub fn scaled(&self, number: i64) -> i128
        requires number { IsWithin MOST_SIDE number }
        requires den { IsWithin (2 ^ 72) self.now.den }
        ensures { result ≡ number *ℤ self.now.den }
    {
        i128::from(number) * self.den
    }

    fn is_from(&self, low: Option<i64>) -> bool
        requires low { ForSome low (IsWithin MOST_SIDE) }
        requires den { IsWithin (2 ^ 72) self.now.den }
        ensures { IsTrue result ↔ ForSome low (λ l. (l *ℤ self.now.den) ≤ℤ self.now.num) }
    {
        match low {
            Some(low) => self.scaled(low) <= self.num,
            None => true,
        }
    }

    fn is_up_to(&self, high: Option<i64>) -> bool
        requires high { ForSome high (IsWithin MOST_SIDE) }
        requires den { IsWithin (2 ^ 72) self.now.den }
        ensures { IsTrue result ↔ ForSome high (λ h. self.now.num ≤ℤ (h *ℤ self.now.den)) }
    {
        match high {
            Some(high) => self.num <= self.scaled(high),
            None => true,
        }
    }

    /// Whether the number lies between the ends that are there.
    pub fn is_between(&self, low: Option<i64>, high: Option<i64>) -> bool
        requires low { ForSome low (IsWithin MOST_SIDE) }
        requires high { ForSome high (IsWithin MOST_SIDE) }
        requires den { IsWithin (2 ^ 72) self.now.den }
        ensures { IsTrue result ↔ Between low high self.now.den self.now.num }
    {
        self.is_from(low) && self.is_up_to(high)
    }

    /// Whether the number is 0 or at least the threshold.
    pub fn is_zero_or_from(&self, threshold: i64) -> bool
        requires threshold { IsWithin MOST_SIDE threshold }
        requires den { IsWithin (2 ^ 72) self.now.den }
        ensures { IsTrue result ↔ ((self.now.num ≡ pos 0) ⊎ ((threshold *ℤ self.now.den) ≤ℤ self.now.num)) }
    {
        self.num == 0 || self.scaled(threshold) <= self.num
    }

    pub fn is_whole(&self) -> bool
        requires { pos 1 ≤ℤ self.now.den }
        ensures { IsTrue result ↔ IsMultipleOf self.now.den self.now.num }
    {
        self.num % self.den == 0
    }
}
