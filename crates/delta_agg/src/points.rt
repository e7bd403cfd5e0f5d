//! The points of a batch in one tree, borrowed from the batch.
ghost use Rattle.std.specs.Prelude.{◌≡◌, ◌<◌, ◌≤◌, ℕ, ℤ, List, length, get_or, sum_by};
ghost use Rattle.std.specs.List.{All};
ghost use Rattle.cube_point.specs.declared.point.Entry as declared;
ghost use Rattle.delta_agg.specs.Orders.{IsBatch, IsTree, entry_at, no_view, run_count, tree_entries};

use crate::entries::{entry_of, point_of};
use crate::runs::ViewRuns;
use cube_point::{Entry, Point};
use fact_batch::FlatRows;
use std::marker::Model;

/// The points of a batch in one tree, in point order, each with the cell of its facts. Contracts see the list of the entries. A point
/// is made when it is asked for.
#[derive(Drop)]
pub struct Points<'a> {
    measures: u8,
    coded: &'a FlatRows<u64>,
    numbers: &'a FlatRows<i128>,
    views: &'a [ViewRuns],
    count: usize,
}

impl<'a> Model for Points<'a> {
    ghost use Rattle.std.specs.Prelude.{List};
    ghost use Rattle.cube_point.specs.declared.point.Entry.{Entry};
    ghost use Rattle.delta_agg.specs.Orders.{IsPoints, tree_entries};

    ghost Value = { List Entry };

    ghost view = { λ p. tree_entries p.measures p.coded.now p.numbers.now p.views.now };

    ghost invariant = { λ p. IsPoints p.measures p.coded.now p.numbers.now p.views.now p.count };
}

impl<'a> Points<'a> {
    /// The points of these views.
    pub(crate) fn new(
        measures: u8,
        coded: &'a FlatRows<u64>,
        numbers: &'a FlatRows<i128>,
        views: &'a [ViewRuns],
    ) -> Points<'a>
        requires batch { IsBatch measures coded.now numbers.now }
        requires tree { IsTree coded.now views.now }
        ensures { result ≡ tree_entries measures coded.now numbers.now views.now }
    {
        Points {
            measures,
            coded,
            numbers,
            views,
            count: count_of(coded, views),
        }
    }

    /// How many points there are.
    pub fn len(&self) -> usize
        ensures { result ≡ length self.now }
    {
        self.count
    }

    /// The point at this position, counted from 0. Does not allocate.
    pub fn point(&self, at: usize) -> Point
        requires { at < length self.now }
        ensures { (d : declared.Entry) → result ≡ (get_or self.now at d).point }
    {
        let place = place_of(self.views, at);
        point_of(self.coded, &self.views[place.view], place.at)
    }

    /// The point at this position, counted from 0, with the cell of its facts. Does not allocate.
    pub fn entry(&self, at: usize) -> Entry
        requires { at < length self.now }
        ensures { (d : declared.Entry) → result ≡ get_or self.now at d }
    {
        let place = place_of(self.views, at);
        entry_of(
            self.measures,
            self.coded,
            self.numbers,
            &self.views[place.view],
            place.at,
        )
    }
}

/// How many points the views have in total.
fn count_of(coded: &FlatRows<u64>, views: &[ViewRuns]) -> usize
    requires few { length coded.now ≤ 262144 }
    requires tree { IsTree coded.now views.now }
    ensures { result ≡ sum_by run_count views.now }
{
    let mut count = 0;
    for i in 0..views.len() {
        count += views[i].count();
    }
    count
}

/// Where a tree has a point.
#[derive(Clone, Copy, Debug, PartialEq, Eq)]
struct Standing {
    /// The number of its view.
    view: usize,
    /// Its position among the points of this view.
    at: usize,
}

/// Where the tree has the point at this position, counted over the views one after another.
fn place_of(views: &[ViewRuns], at: usize) -> Standing
    requires some { All (λ v. 1 ≤ length v.runs.cuts) views.now }
    requires at { at < sum_by run_count views.now }
    ensures view { result.view < length views.now }
    ensures at { result.at < run_count (get_or views.now result.view no_view) }
    ensures is { (measures : ℕ) (coded : List (List ℕ)) (numbers : List (List ℤ)) (d : declared.Entry)
        → get_or (tree_entries measures coded numbers views.now) at d ≡ entry_at measures coded numbers (get_or views.now result.view no_view) result.at }
{
    let mut left = at;
    for view in 0..views.len() {
        let count = views[view].count();
        if left < count {
            return Standing { view, at: left };
        }
        left -= count;
    }
    unreachable!()
}
