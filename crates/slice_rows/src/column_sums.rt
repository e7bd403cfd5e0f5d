//! Whether the numbers of the rows of points add up.
ghost use Rattle.std.specs.Prelude.{◌≤◌, ◌↔◌, IsTrue, nat_abs, sum_by};
ghost use Rattle.fact_model.specs.Adds.{AddUp, numbers_in};
ghost use Rattle.fact_model.specs.Fact.{mass_limit};

use crate::rows::SliceRows;

/// The greatest sum of magnitudes.
const MASS_LIMIT: u128 = 0x7FFF_FFFF_FFFF_FFFF_FFFF_FFFF_FFFF_FFFF;

/// Whether in each column of numbers the magnitudes add up.
pub(crate) fn add_up(rows: &SliceRows<'_>) -> bool
    ensures { IsTrue result ↔ AddUp rows.now }
{
    for column in 0..rows.width() {
        if !column_adds(rows, column) {
            return false;
        }
    }
    true
}

/// Whether the magnitudes of a column add up.
fn column_adds(rows: &SliceRows<'_>, column: usize) -> bool
    ensures { IsTrue result ↔ (sum_by nat_abs (numbers_in column rows.now) ≤ mass_limit) }
{
    let mut sum: u128 = 0;
    for place in 0..rows.len() {
        sum += rows.number(place, column).unsigned_abs();
        if sum > MASS_LIMIT {
            return false;
        }
    }
    true
}
