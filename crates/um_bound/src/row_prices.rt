//! The multipliers of all rows, laid out by row.

ghost use Rattle.std.specs.Prelude.{◌<◌, All, AllPairs, unsigned_abs};
ghost use Rattle.um_multipliers.specs.declared.multipliers.Price.{Price};
ghost use Rattle.um_bound.specs.RowPrices.{AreRowPrices};
ghost use Rattle.um_model.specs.declared.limits.TheConstants.{MULTIPLIER_SIZE};

use um_model::Price;
use um_model::limits::MOST_ROWS;

/// The multiplier of each row that a deck may have, and 0 for a row that has none, on the stack.
pub(crate) type RowPrices = [i128; MOST_ROWS];

/// The multipliers by row.
pub(crate) fn row_prices(prices: &[Price]) -> RowPrices
    requires sizes { All (λ (p : Price). unsigned_abs p.value < MULTIPLIER_SIZE) prices.now }
    requires inside { All (λ (p : Price). p.row < MOST_ROWS) prices.now }
    requires rise { AllPairs (λ (a : Price) (b : Price). a.row < b.row) prices.now }
    ensures { AreRowPrices prices.now result }
{
    let mut by_row = [0; MOST_ROWS];
    for price in prices {
        by_row[price.row as usize] = price.value;
    }
    by_row
}
