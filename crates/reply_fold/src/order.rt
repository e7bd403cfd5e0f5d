//! The order of rows by their keys.
ghost use Rattle.std.specs.Prelude.{◌≡◌, IfOk};
ghost use Rattle.std.specs.List.{range_with_len};
ghost use Rattle.fact_model.specs.Value.{key_cmp};
ghost use Rattle.reply_fold.specs.Order.{IsOrderOf, row_at};

use fact_model::{Memory, Row, Value};
use std::alloc::Global;
use std::cmp::Ordering;

/// The places of rows in the order of their keys. If replies are in order, as those of `cubetree` are, the sort merges them.
pub(crate) fn order_of(alloc: Global, rows: &[Row]) -> Result<Vec<usize>, Memory>
    ensures { IfOk result (λ order. IsOrderOf rows.now order.items) }
{
    let mut order = each_place(alloc, rows.len())?;
    order.sort_by(|a, b| compare(rows, *a, *b))?;
    Ok(order)
}

/// The first `count` places, in order.
fn each_place(alloc: Global, count: usize) -> Result<Vec<usize>, Memory>
    ensures { IfOk result (λ places. places.items ≡ range_with_len 0 count) }
{
    let mut places = Vec::with_capacity(alloc, count)?;
    for place in 0..count {
        places.push(place)?;
    }
    Ok(places)
}

/// Compares the keys at two places.
pub(crate) fn compare(rows: &[Row], first: usize, second: usize) -> Ordering
    ensures { result ≡ key_cmp (row_at rows.now first).key (row_at rows.now second).key }
{
    key_at(rows, first).cmp(key_at(rows, second))
}

/// The key of the row at a place; empty if there is none.
pub(crate) fn key_at(rows: &[Row], at: usize) -> &[Value]
    ensures { result.now ≡ (row_at rows.now at).key }
{
    match rows.get(at) {
        Some(row) => row.key.as_slice(),
        None => &[],
    }
}

/// The numbers of the row at a place; empty if there is none.
pub(crate) fn numbers_at(rows: &[Row], at: usize) -> &[i128]
    ensures { result.now ≡ (row_at rows.now at).numbers }
{
    match rows.get(at) {
        Some(row) => row.numbers.as_slice(),
        None => &[],
    }
}
