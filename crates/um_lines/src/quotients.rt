//! Rows of whole numbers over what divides them.

ghost use Rattle.std.specs.Prelude.{◌≡◌, ℕ, ◌<◌, pos, ◌*ℤ◌, ◌≤ℤ◌, length, unsigned_abs};
ghost use Rattle.std.specs.Int.{◌∣◌};
ghost use Rattle.um_lines.specs.Combined.{IsGuess};
ghost use Rattle.um_lines.specs.Lines.{whole_at, AreInRange, AreMultiples, AreDividedBy};
ghost use Rattle.um_num.specs.Numbers.{IsInRange};

use um_num::{gcd, part};

/// What divides two numbers, where the first is above 0.
pub fn shared_by(den: i128, num: i128) -> i128
    requires positive { pos 1 ≤ℤ den }
    requires den_in { IsInRange den }
    requires num_in { IsInRange num }
    ensures positive { pos 1 ≤ℤ result }
    ensures range { IsInRange result }
    ensures den { unsigned_abs result ∣ unsigned_abs den }
    ensures num { unsigned_abs result ∣ unsigned_abs num }
    ensures greatest { (d : ℕ) → d ∣ unsigned_abs den → d ∣ unsigned_abs num → d ∣ unsigned_abs result }
{
    gcd(num, den)
}

/// What divides a number and all numbers of a row.
pub fn common_divisor(den: i128, nums: &[i128]) -> i128
    requires positive { pos 1 ≤ℤ den }
    requires den_in { IsInRange den }
    requires nums_in { AreInRange nums.now }
    ensures positive { pos 1 ≤ℤ result }
    ensures den { unsigned_abs result ∣ unsigned_abs den }
    ensures nums { AreMultiples result nums.now }
    ensures greatest { (d : ℕ) → d ∣ unsigned_abs den → AreDividedBy d nums.now → d ∣ unsigned_abs result }
{
    let mut shared = den;
    for num in nums {
        if shared == 1 {
            return 1;
        }
        shared = shared_by(shared, *num);
    }
    shared
}

/// Divides each number of a row.
pub fn divide(nums: &mut [i128], divisor: i128)
    requires positive { pos 1 ≤ℤ divisor }
    requires multiples { AreMultiples divisor nums.old }
    requires range { AreInRange nums.old }
    ensures value { (j : ℕ) → j < length nums.old → (whole_at nums.new j *ℤ divisor) ≡ whole_at nums.old j }
    ensures range { AreInRange nums.new }
{
    for j in 0..nums.len() {
        nums[j] = part(nums[j], divisor);
    }
}
