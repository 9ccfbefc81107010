//! The type of multipliers, and its tests.

ghost use Rattle.std.specs.Prelude.{◌≡◌, ◌≢◌, ◌^◌, ◌<◌, ◌↔◌, pos, unsigned_abs, IsTrue, All, AllPairs};
ghost use Rattle.um_multipliers.specs.NormalForm.{HasRisingRows, IsNormal};
ghost use Rattle.um_multipliers.specs.PlainMultipliers.{plain_multipliers};
ghost use Rattle.um_multipliers.specs.Sizes.{AreBelow};
ghost use Rattle.um_multipliers.specs.declared.multipliers.Price.{Price};

use um_num::List;

/// The multiplier of one row.
#[derive(Clone, Copy, PartialEq, Eq, Debug)]
pub struct Price {
    pub row: u32,
    /// Never 0 in normal form.
    pub value: i128,
}

/// The multiplier of the objective and those of the rows. A row that is not named has 0.
///
/// In normal form the rows rise and no value is 0.
#[derive(Debug, Drop)]
pub struct Multipliers {
    pub y0: i128,
    pub rows: List<Price>,
}

impl Multipliers {
    /// What every small multiplier is below in size.
    pub const SIZE: u128 = 1 << 40;

    /// Whether the rows rise and no value is 0.
    pub fn is_normal(&self) -> bool
        ensures { IsTrue result ↔ IsNormal self.now.rows.items }
    {
        let prices = self.rows.as_slice();
        do_rows_rise(prices) && are_values_nonzero(prices)
    }

    /// Whether the rows are below this count, and rise.
    pub fn has_rising_rows(&self, rows: usize) -> bool
        ensures { IsTrue result ↔ HasRisingRows rows self.now.rows.items }
    {
        let prices = self.rows.as_slice();
        are_rows_within(rows, prices) && do_rows_rise(prices)
    }

    /// Whether all multipliers are below 2^40 in size.
    pub fn is_small(&self) -> bool
        ensures { IsTrue result ↔ AreBelow (2 ^ 40) (plain_multipliers self.now) }
    {
        self.y0.unsigned_abs() < Self::SIZE && are_values_small(self.rows.as_slice())
    }
}

fn do_rows_rise(prices: &[Price]) -> bool
    ensures { IsTrue result ↔ AllPairs (λ (a : Price) (b : Price). a.row < b.row) prices.now }
{
    for i in 1..prices.len() {
        if prices[i].row <= prices[i - 1].row {
            return false;
        }
    }
    true
}

fn are_rows_within(rows: usize, prices: &[Price]) -> bool
    ensures { IsTrue result ↔ All (λ (p : Price). p.row < rows) prices.now }
{
    for price in prices {
        if price.row as usize >= rows {
            return false;
        }
    }
    true
}

fn are_values_nonzero(prices: &[Price]) -> bool
    ensures { IsTrue result ↔ All (λ (p : Price). p.value ≢ pos 0) prices.now }
{
    for price in prices {
        if is_zero(price) {
            return false;
        }
    }
    true
}

fn is_zero(price: &Price) -> bool
    ensures { IsTrue result ↔ (price.now.value ≡ pos 0) }
{
    price.value == 0
}

fn are_values_small(prices: &[Price]) -> bool
    ensures { IsTrue result ↔ All (λ (p : Price). unsigned_abs p.value < 2 ^ 40) prices.now }
{
    for price in prices {
        if price.value.unsigned_abs() >= Multipliers::SIZE {
            return false;
        }
    }
    true
}
