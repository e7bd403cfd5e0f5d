//! Whether the numbers of rows add up.
ghost use Rattle.std.specs.Prelude.{◌≡◌, ◌≤◌, ◌+◌, ◌↔◌, IsTrue, All, length, nat_abs, sum_by};
ghost use Rattle.fact_model.specs.declared.slice.Row as answers;
ghost use Rattle.fact_model.specs.Adds.{AddUp, number_in, numbers_in, width};
ghost use Rattle.fact_model.specs.Fact.{mass_limit};

use crate::list::ListOf;
use crate::slice::Row;

/// The greatest sum of magnitudes.
const MASS_LIMIT: u128 = 0x7FFF_FFFF_FFFF_FFFF_FFFF_FFFF_FFFF_FFFF;

impl ListOf<Row> {
    /// Whether every row has as many numbers as the first, and in each column of numbers the magnitudes add up to at most 2^127 - 1.
    /// The rows of facts within their masses do. It takes no memory.
    pub fn adds(&self) -> bool
        ensures { IsTrue result ↔ AddUp self.now }
    {
        add_up(self.as_slice())
    }
}

/// Whether the rows have as many numbers as the first, which add up in each column.
fn add_up(rows: &[Row]) -> bool
    ensures { IsTrue result ↔ AddUp rows.now }
{
    let width = width(rows);
    if !are_wide(rows, width) {
        return false;
    }
    for column in 0..width {
        if !column_adds(rows, column) {
            return false;
        }
    }
    true
}

/// How many numbers the first row has.
fn width(rows: &[Row]) -> usize
    ensures { result ≡ width rows.now }
{
    match rows {
        [] => 0,
        [first, ..] => first.numbers.as_slice().len(),
    }
}

/// Whether each row has so many numbers.
fn are_wide(rows: &[Row], width: usize) -> bool
    ensures { IsTrue result ↔ All (λ (row : answers.Row). length row.numbers ≡ width) rows.now }
{
    rows.iter().all(|row| row.numbers.as_slice().len() == width)
}

/// Whether the magnitudes of a column add up.
fn column_adds(rows: &[Row], column: usize) -> bool
    ensures { IsTrue result ↔ (sum_by nat_abs (numbers_in column rows.now) ≤ mass_limit) }
{
    let mut sum: u128 = 0;
    for row in rows {
        sum += magnitude_in(row, column);
        if sum > MASS_LIMIT {
            return false;
        }
    }
    true
}

/// The magnitude of a row's number in a column, and 0 where it has none.
#[tactic(auto, using(crate::proofs::Defaults::reads))]
fn magnitude_in(row: &Row, column: usize) -> u128
    ensures value { result ≡ nat_abs (number_in column row.now) }
    ensures low { result ≤ mass_limit + 1 }
{
    match row.numbers.get(column) {
        Some(number) => number.unsigned_abs(),
        None => 0,
    }
}
