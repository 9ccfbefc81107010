//! The key rows of a deck: equations with equal coefficients that share no column.

ghost use Rattle.std.specs.Prelude.{◌≡◌, ◌<◌, ◌^◌, ◌↔◌, IsTrue, map, length, All, Contains, IfOk};
ghost use Rattle.std.specs.Option.{MatchOption};
ghost use Rattle.um_model.specs.declared.deck.Column.{Column};
ghost use Rattle.um_model.specs.declared.deck.Entry.{Entry};
ghost use Rattle.um_model.specs.Values.{plain_column};
ghost use Rattle.um_relax.specs.KeyRows.{HasCoefficient, AreEqualSides, HasEqualCoefficients, IsFreeOf, IsKey, AreKeyRows};
ghost use Rattle.um_relax.specs.KeyTests.{Lacks, HasOnly, IsApart, IsApartIn, IsCoefficient};

use std::alloc::Global;
use um_deck::{Column, Entry, Row};
use um_num::{List, Memory};

/// The key rows by rising index: each equation whose coefficients are equal, and none of whose columns
/// stands in an earlier key row.
pub(crate) fn key_rows(alloc: Global, columns: &[Column], rows: &[Row]) -> Result<List<u32>, Memory>
    requires { length rows.now < 2 ^ 32 }
    ensures { IfOk result (λ keys. AreKeyRows (map plain_column columns.now) rows.now (length rows.now) keys.items) }
{
    let mut keys = List::new(alloc);
    for row in 0..rows.len() {
        if is_key(columns, &rows[row], keys.as_slice(), row as u32) {
            keys.push(row as u32)?;
        }
    }
    Ok(keys)
}

/// Whether this is a key row after these.
fn is_key(columns: &[Column], row_data: &Row, keys: &[u32], row: u32) -> bool
    ensures { IsTrue result ↔ IsKey (map plain_column columns.now) row_data.now keys.now row }
{
    are_equal_sides(row_data.low, row_data.high)
        && has_equal_coefficients(columns, row)
        && is_free(columns, keys, row)
}

/// Whether both sides are there and equal.
fn are_equal_sides(low: Option<i64>, high: Option<i64>) -> bool
    ensures { IsTrue result ↔ AreEqualSides low high }
{
    match low {
        Some(low) => match high {
            Some(high) => low == high,
            None => false,
        },
        None => false,
    }
}

/// Whether all coefficients of the row are equal.
fn has_equal_coefficients(columns: &[Column], row: u32) -> bool
    ensures { IsTrue result ↔ HasEqualCoefficients (map plain_column columns.now) row }
{
    match first_coefficient(columns, row) {
        Some(value) => have_only(columns, row, value),
        None => true,
    }
}

/// The row's coefficient in the first column that stands in it.
fn first_coefficient(columns: &[Column], row: u32) -> Option<i64>
    ensures { MatchOption result (All (λ (c : Column). Lacks row c.entries.items) columns.now) (IsCoefficient columns.now row) }
{
    for column in columns {
        if let Some(value) = coefficient_in(column.entries.as_slice(), row) {
            return Some(value);
        }
    }
    None
}

/// The value of the first entry in the row.
fn coefficient_in(entries: &[Entry], row: u32) -> Option<i64>
    ensures { MatchOption result (Lacks row entries.now) (HasCoefficient entries.now row) }
{
    for entry in entries {
        if entry.row == row {
            return Some(entry.value);
        }
    }
    None
}

/// Whether each coefficient of the row is this one.
fn have_only(columns: &[Column], row: u32, value: i64) -> bool
    ensures { IsTrue result ↔ All (λ (c : Column). HasOnly row value c.entries.items) columns.now }
{
    for column in columns {
        if !has_only(column.entries.as_slice(), row, value) {
            return false;
        }
    }
    true
}

/// Whether each entry in the row has this value.
fn has_only(entries: &[Entry], row: u32, value: i64) -> bool
    ensures { IsTrue result ↔ HasOnly row value entries.now }
{
    for entry in entries {
        if entry.row == row && entry.value != value {
            return false;
        }
    }
    true
}

/// Whether no column that stands in the row stands in one of the keys.
fn is_free(columns: &[Column], keys: &[u32], row: u32) -> bool
    ensures { IsTrue result ↔ IsFreeOf (map plain_column columns.now) keys.now row }
{
    for column in columns {
        if !is_apart_in(column.entries.as_slice(), keys, row) {
            return false;
        }
    }
    true
}

/// Whether the column, if it stands in the row, stands in none of the keys.
fn is_apart_in(entries: &[Entry], keys: &[u32], row: u32) -> bool
    ensures { IsTrue result ↔ IsApartIn keys.now row entries.now }
{
    match coefficient_in(entries, row) {
        Some(_) => is_apart(entries, keys),
        None => true,
    }
}

/// Whether none of the entries is in one of the keys.
fn is_apart(entries: &[Entry], keys: &[u32]) -> bool
    ensures { IsTrue result ↔ IsApart keys.now entries.now }
{
    for entry in entries {
        if is_listed(keys, entry.row) {
            return false;
        }
    }
    true
}

/// Whether the row is one of these.
fn is_listed(keys: &[u32], row: u32) -> bool
    ensures { IsTrue result ↔ Contains keys.now row }
{
    for key in keys {
        if *key == row {
            return true;
        }
    }
    false
}
