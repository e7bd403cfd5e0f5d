//! The points of a view, each from the rows of its run.
ghost use Rattle.std.specs.Prelude.{◌≡◌, ◌<◌, ℕ, ℤ, List};
ghost use Rattle.delta_agg.specs.Orders.{IsBatch, IsRuns, entry_at, run_count};

use crate::cells::cell_of;
use crate::placed::point;
use crate::runs::ViewRuns;
use cube_point::{Entry, Point};
use fact_batch::FlatRows;

/// The point of the run with this number.
pub(crate) fn point_of(coded: &FlatRows<u64>, view: &ViewRuns, at: usize) -> Point
    requires runs { IsRuns coded.now view.now }
    requires at { at < run_count view.now }
    ensures { (measures : ℕ) (numbers : List (List ℤ)) → result ≡ (entry_at measures coded.now numbers view.now at).point }
{
    let row = view.first(at);
    point(view.view.as_slice(), coded.row(row as usize))
}

/// The entry of the run with this number.
pub(crate) fn entry_of(
    measures: u8,
    coded: &FlatRows<u64>,
    numbers: &FlatRows<i128>,
    view: &ViewRuns,
    at: usize,
) -> Entry
    requires batch { IsBatch measures coded.now numbers.now }
    requires runs { IsRuns coded.now view.now }
    requires at { at < run_count view.now }
    ensures { result ≡ entry_at measures coded.now numbers.now view.now at }
{
    Entry {
        point: point_of(coded, view, at),
        cell: cell_of(measures, numbers, view.run(at)),
    }
}
