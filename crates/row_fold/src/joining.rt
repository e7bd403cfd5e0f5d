//! The numbers of two rows, joined.
ghost use Rattle.std.specs.Prelude.{◌≡◌, ◌≤◌, ◌+◌, nat_abs};
ghost use Rattle.fact_model.specs.Fact.{mass_limit};
ghost use Rattle.row_fold.specs.Joins.{CanJoin, join_number, join_numbers};

use fact_model::Column;

/// Joins numbers to the sums so far, column by column: counts and sums are added, and of two least or greatest numbers one is kept.
pub fn join_numbers(columns: &[Column], numbers: &[i128], sums: &mut [i128])
    requires { CanJoin columns.now numbers.now sums.old }
    ensures { sums.new ≡ join_numbers columns.now numbers.now sums.old }
{
    for i in 0..columns.len() {
        sums[i] = join_number(columns[i], numbers[i], sums[i]);
    }
}

/// The two numbers of a column, joined.
fn join_number(column: Column, number: i128, sum: i128) -> i128
    requires { nat_abs number + nat_abs sum ≤ mass_limit }
    ensures { result ≡ join_number column number sum }
{
    match column {
        Column::Count | Column::Sum(_) => number + sum,
        Column::Min(_) => number.min(sum),
        Column::Max(_) => number.max(sum),
    }
}
