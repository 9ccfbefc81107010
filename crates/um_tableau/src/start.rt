//! The board at its making.

ghost use Rattle.std.specs.Prelude.{◌≡◌, ℕ, ◌+◌, ◌<◌, ◌≤◌, ◌++◌, ◌∷◌, [], pos, length, replicate, slice_index, slice_index_or, IfOk, OnOk, Some};
ghost use Rattle.um_laws.specs.Rational.{whole};
ghost use Rattle.um_lp.specs.States.{width, data_of, coefficient, system};
ghost use Rattle.um_lines.specs.Lines.{whole_at, AreInRange};
ghost use Rattle.um_tableau.specs.Starts.{bare, IsSystemRow, AreCosts, AreSystemRows, AreSlacks, AreFirstStatuses};

use crate::given::Given;
use std::alloc::{AllocError, Global};
use um_lines::Line;
use um_lp::{At, Costs};
use um_num::Frac;

fn zeros(alloc: Global, width: usize) -> Result<Vec<i128>, AllocError>
    ensures { IfOk result (λ nums. nums.items ≡ replicate width (pos 0)) }
{
    vec![in alloc; 0; width]
}

/// A line of zeros.
pub fn zero_line(alloc: Global, width: usize) -> Result<Line, AllocError>
    ensures { IfOk result (λ line. length line ≡ width) }
{
    let nums = zeros(alloc, width)?;
    Line::from_wholes(alloc, nums)
}

/// Writes what the columns before the slacks have in a row.
fn write_coefficients(given: &Given, row: u32, nums: &mut [i128])
    requires fits { length given.now.columns ≤ length nums.old }
    requires zeros { (j : ℕ) → whole_at nums.old j ≡ pos 0 }
    ensures value { (j : ℕ) → j < width given.now → whole_at nums.new j ≡ coefficient (data_of (bare given.now) j).terms row }
    ensures range { AreInRange nums.new }
{
    for j in 0..given.first_slack() as usize {
        nums[j] = given.coefficient(j, row);
    }
}

/// Writes what the columns before the slacks cost.
fn write_costs(given: &Given, nums: &mut [i128])
    requires fits { length given.now.columns ≤ length nums.old }
    requires zeros { (j : ℕ) → whole_at nums.old j ≡ pos 0 }
    ensures value { (j : ℕ) → j < width given.now → whole_at nums.new j ≡ (data_of (bare given.now) j).cost }
    ensures range { AreInRange nums.new }
{
    let costs = given.costs();
    for j in 0..costs.len() {
        nums[j] = costs[j];
    }
}

/// Writes what the system has in a row.
fn write_row(given: &Given, row: u32, nums: &mut [i128])
    requires row_in { row < given.now.rows }
    requires long { length nums.old ≡ width given.now }
    requires zeros { (j : ℕ) → whole_at nums.old j ≡ pos 0 }
    ensures value { (j : ℕ) → j < width given.now → whole (whole_at nums.new j) ≡ system (bare given.now) row j }
    ensures range { AreInRange nums.new }
{
    write_coefficients(given, row, nums);
    nums[given.first_slack() as usize + row as usize] = -1;
}

/// What the system has in a row.
fn system_row(alloc: Global, given: &Given, row: u32) -> Result<Line, AllocError>
    requires { row < given.now.rows }
    ensures { IfOk result (IsSystemRow given.now row) }
{
    let mut nums = zeros(alloc, given.width() as usize)?;
    write_row(given, row, nums.as_mut_slice());
    Line::from_wholes(alloc, nums)
}

/// The given costs of all columns.
pub fn first_costs(alloc: Global, given: &Given) -> Result<Line, AllocError>
    ensures { IfOk result (AreCosts Costs.Given given.now) }
{
    let mut nums = zeros(alloc, given.width() as usize)?;
    write_costs(given, nums.as_mut_slice());
    Line::from_wholes(alloc, nums)
}

/// A cost of 0 for each column.
pub fn no_costs(alloc: Global, given: &Given) -> Result<Line, AllocError>
    ensures { IfOk result (AreCosts Costs.Nothing given.now) }
{
    let nums = zeros(alloc, given.width() as usize)?;
    Line::from_wholes(alloc, nums)
}

/// The rows of the system.
pub fn system_rows(alloc: Global, given: &Given) -> Result<Vec<Line>, AllocError>
    ensures { IfOk result (λ lines. AreSystemRows given.now given.now.rows lines.items) }
{
    let mut lines = Vec::new(alloc);
    for row in 0..given.rows() {
        lines.push(system_row(alloc, given, row)?)?;
    }
    Ok(lines)
}

/// The slacks of all rows.
pub fn first_basic(alloc: Global, given: &Given) -> Result<Vec<u32>, AllocError>
    ensures { IfOk result (λ basic. AreSlacks given.now basic.items) }
{
    let mut basic = Vec::new(alloc);
    for slack in given.first_slack()..given.first_place() {
        basic.push(slack)?;
    }
    Ok(basic)
}

fn all_lower(alloc: Global, width: usize) -> Result<Vec<At>, AllocError>
    ensures { IfOk result (λ at. at.items ≡ replicate width At.Lower) }
{
    vec![in alloc; At::Lower; width]
}

/// Marks the slacks as basic.
pub fn mark_slacks(at: &mut [At], first: usize, rows: usize)
    requires { first + rows ≤ length at.old }
    ensures slacks { (i : ℕ) → i < rows → slice_index_or at.new (first + i) At.Zero ≡ At.Basic }
    ensures before { (j : ℕ) → j < first → slice_index_or at.new j At.Zero ≡ slice_index_or at.old j At.Zero }
    ensures behind { (j : ℕ) → first + rows ≤ j → slice_index_or at.new j At.Zero ≡ slice_index_or at.old j At.Zero }
{
    for i in 0..rows {
        at[first + i] = At::Basic;
    }
}

/// Where the columns stand first.
pub fn first_statuses(alloc: Global, given: &Given) -> Result<Vec<At>, AllocError>
    ensures { IfOk result (λ at. AreFirstStatuses given.now at.items) }
{
    let mut at = all_lower(alloc, given.width() as usize)?;
    mark_slacks(
        at.as_mut_slice(),
        given.first_slack() as usize,
        given.rows() as usize,
    );
    Ok(at)
}

/// Ends of 0 for all columns.
pub fn zero_ends(
    alloc: Global,
    width: usize,
) -> Result<Vec<(Option<i128>, Option<i128>)>, AllocError>
    ensures { IfOk result (λ ends. ends.items ≡ replicate width (Some (pos 0), Some (pos 0))) }
{
    vec![in alloc; (Some(0), Some(0)); width]
}

/// Values of 0.
#[tactic(auto, unfolding(um_laws::specs::Rational::whole))]
pub fn zero_values(alloc: Global, width: usize) -> Result<Vec<Frac>, AllocError>
    ensures { IfOk result (λ values. values.items ≡ replicate width (whole (pos 0))) }
{
    vec![in alloc; Frac::new(0, 1); width]
}
