//! Rays: directions in which a deck has no end and its objective falls.

ghost use Rattle.std.specs.Prelude.{◌≡◌, ◌<◌, ◌≤◌, ◌^◌, ◌*ℤ◌, ◌<ℤ◌, pos, length, map, All, IsTrue, ◌↔◌, unsigned_abs};
ghost use Rattle.um_laws.specs.Sums.{dot};
ghost use Rattle.um_model.specs.Accepted.{NumbersSmall, RayHolds};
ghost use Rattle.um_model.specs.AnswerValues.{plain_answer};
ghost use Rattle.um_model.specs.Checkable.{IsCheckable};
ghost use Rattle.um_model.specs.Feasible.{AllPlaces, coefficient};
ghost use Rattle.um_model.specs.Objective.{cost_sum};
ghost use Rattle.um_model.specs.Rays.{IsFree, Ray};
ghost use Rattle.um_model.specs.Values.{ColumnValue, plain_column};
ghost use Rattle.um_model.specs.WellFormed.{IsWithin};
ghost use Rattle.um_model.specs.declared.limits.TheConstants.{MOST_COLUMNS, MOST_COEFFICIENT};
ghost use Rattle.um_point.specs.Places.{HoldsAt};
ghost use Rattle.um_point.specs.RowSums.{AreSums, HaveGrown};
ghost use Rattle.um_point.specs.SmallPoints.{IsSmallColumn};
ghost use Rattle.um_check.specs.RayParts.{IsRayPart, ColumnIsFree, RowIsFree};

use um_deck::{Column, Deck, Entry};
use um_model::Answer;
use um_model::limits::MOST_ROWS;

/// A sum for each row that a deck may have, on the stack.
type RowSums = [i128; MOST_ROWS];

/// Whether the ray, if there is one, is a ray of the deck.
pub fn does_ray_hold(deck: &Deck, answer: &Answer) -> bool
    requires checkable { IsCheckable deck.now (plain_answer answer.now) }
    requires small { NumbersSmall (plain_answer answer.now) }
    ensures { IsTrue result ↔ RayHolds deck.now (plain_answer answer.now) }
{
    match &answer.ray {
        Some(ray) => is_ray(deck, ray.as_slice()),
        None => true,
    }
}

/// Whether no end of a column and no side of a row stops a move along the ray, and the costs fall.
pub fn is_ray(deck: &Deck, ray: &[i128]) -> bool
    requires parts { length ray.now ≡ length deck.now.columns }
    requires small { All IsRayPart ray.now }
    ensures { IsTrue result ↔ Ray deck.now ray.now }
{
    are_columns_free(deck, ray) && are_rows_free(deck, ray) && do_costs_fall(deck, ray)
}

fn row_count(deck: &Deck) -> u32
    ensures count { result ≡ length deck.now.rows }
    ensures few { result ≤ MOST_ROWS }
{
    deck.known();
    deck.rows().len() as u32
}

fn column_count(deck: &Deck) -> u32
    ensures { result ≡ length deck.now.columns }
{
    deck.known();
    deck.columns().len() as u32
}

/// Whether no column's ends stop the ray.
fn are_columns_free(deck: &Deck, ray: &[i128]) -> bool
    requires { length ray.now ≡ length deck.now.columns }
    ensures { IsTrue result ↔ AllPlaces (ColumnIsFree ray.now) deck.now.columns }
{
    for column in 0..column_count(deck) {
        if !is_column_free(deck, column, &ray[column as usize]) {
            return false;
        }
    }
    true
}

/// Whether the column's ends leave its value free to change this way.
fn is_column_free(deck: &Deck, column: u32, change: &i128) -> bool
    requires { column < length deck.now.columns }
    ensures { IsTrue result ↔ HoldsAt (λ place c. IsFree c.low c.high change.now) deck.now.columns column }
{
    let ends = &deck.columns()[column as usize];
    is_free(ends.low, ends.high, change)
}

/// Whether no row's sides stop the ray.
fn are_rows_free(deck: &Deck, ray: &[i128]) -> bool
    requires parts { length ray.now ≡ length deck.now.columns }
    requires small { All IsRayPart ray.now }
    ensures { IsTrue result ↔ AllPlaces (RowIsFree deck.now ray.now) deck.now.rows }
{
    deck.known();
    let sums = linear_sums(deck.columns(), ray);
    for row in 0..row_count(deck) {
        if !is_row_free(deck, row, &sums[row as usize]) {
            return false;
        }
    }
    true
}

/// Whether the row's sides leave its sum free to change this way.
fn is_row_free(deck: &Deck, row: u32, change: &i128) -> bool
    requires { row < length deck.now.rows }
    ensures { IsTrue result ↔ HoldsAt (λ place r. IsFree r.low r.high change.now) deck.now.rows row }
{
    let sides = &deck.rows()[row as usize];
    is_free(sides.low, sides.high, change)
}

/// Whether neither end stops a number that changes this way, however far it goes.
fn is_free(low: Option<i64>, high: Option<i64>, change: &i128) -> bool
    ensures { IsTrue result ↔ IsFree low high change.now }
{
    (low.is_none() || *change >= 0) && (high.is_none() || *change <= 0)
}

/// Whether the objective falls along the ray.
fn do_costs_fall(deck: &Deck, ray: &[i128]) -> bool
    requires parts { length ray.now ≡ length deck.now.columns }
    requires small { All IsRayPart ray.now }
    ensures { IsTrue result ↔ (cost_sum deck.now ray.now <ℤ pos 0) }
{
    deck.known();
    cost_sum(deck.columns(), ray) < 0
}

/// What a column with this part adds to the costs.
fn cost_term(column: &Column, part: &i128) -> i128
    requires column { IsSmallColumn (plain_column column.now) }
    requires part { IsRayPart part.now }
    ensures value { result ≡ column.now.cost *ℤ part.now }
    ensures size { IsWithin (2 ^ 93) result }
{
    i128::from(column.cost) * *part
}

/// The sum of the costs times the ray's parts.
fn cost_sum(columns: &[Column], ray: &[i128]) -> i128
    requires columns { All IsSmallColumn (map plain_column columns.now) }
    requires few { length columns.now ≤ MOST_COLUMNS }
    requires small { All IsRayPart ray.now }
    requires beside { length ray.now ≡ length columns.now }
    ensures value { result ≡ dot (λ (c : ColumnValue). c.cost) (map plain_column columns.now) ray.now }
    ensures size { IsWithin (2 ^ 105) result }
{
    let mut sum = 0;
    for (index, column) in columns.iter().enumerate() {
        sum += cost_term(column, &ray[index]);
    }
    sum
}

/// What an entry adds to the sum of its row.
fn entry_term(entry: &Entry, part: &i128) -> i128
    requires value { IsWithin MOST_COEFFICIENT entry.now.value }
    requires part { IsRayPart part.now }
    ensures value { result ≡ entry.now.value *ℤ part.now }
    ensures size { IsWithin (2 ^ 93) result }
{
    i128::from(entry.value) * *part
}

/// Adds to each row's sum the column's coefficient in the row times its part.
fn add_column(sums: &mut [i128], column: &Column, part: &i128)
    requires sums { length sums.old ≡ MOST_ROWS }
    requires sizes { All (IsWithin (2 ^ 124)) sums.old }
    requires column { IsSmallColumn (plain_column column.now) }
    requires part { IsRayPart part.now }
    ensures { HaveGrown (λ row. coefficient row (plain_column column.now) *ℤ part.now) sums.old sums.new }
{
    for entry in column.entries.as_slice() {
        sums[entry.row as usize] += entry_term(entry, part);
    }
}

/// By how much each row's sum changes along the ray; 0 past the last row.
fn linear_sums(columns: &[Column], ray: &[i128]) -> RowSums
    requires columns { All IsSmallColumn (map plain_column columns.now) }
    requires few { length columns.now ≤ MOST_COLUMNS }
    requires small { All IsRayPart ray.now }
    requires beside { length ray.now ≡ length columns.now }
    ensures { AreSums (λ row. dot (coefficient row) (map plain_column columns.now) ray.now) result }
{
    let mut sums = [0; MOST_ROWS];
    for (index, column) in columns.iter().enumerate() {
        add_column(&mut sums, column, &ray[index]);
    }
    sums
}
