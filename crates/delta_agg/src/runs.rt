//! The rows of a batch in the order of a view, cut into the runs of its points.
ghost use Rattle.std.specs.Prelude.{◌≡◌, ◌<◌, ◌≤◌, ◌+◌, ◌-◌, length, slice_index};
ghost use Rattle.delta_agg.specs.Orders.{run_at, run_count};

use fact_model::ListOf;

/// All rows of a batch in the order of their places in a view, the position where each place begins, and the end.
#[derive(Drop)]
pub(crate) struct Runs {
    /// The rows, counted from 0.
    pub(crate) order: ListOf<u32>,
    /// The positions where the rows of each place begin, ascending, and then the number of rows.
    pub(crate) cuts: ListOf<u32>,
}

/// A view with its runs. A run is the rows that share one place.
#[derive(Drop)]
pub(crate) struct ViewRuns {
    /// The attributes of the view.
    pub(crate) view: ListOf<u32>,
    /// The rows in its order.
    pub(crate) runs: Runs,
}

/// The views of a tree, by ascending arity.
pub(crate) type TreeRuns = ListOf<ViewRuns>;

impl ViewRuns {
    /// How many runs there are.
    pub(crate) fn count(&self) -> usize
        requires { 1 ≤ length self.now.runs.cuts }
        ensures { result ≡ run_count self.now }
    {
        self.runs.cuts.as_slice().len() - 1
    }

    /// The rows of the run with this number.
    pub(crate) fn run(&self, at: usize) -> &[u32]
        requires at { at + 1 < length self.now.runs.cuts }
        requires rises { slice_index self.now.runs.cuts at ≤ slice_index self.now.runs.cuts (at + 1) }
        requires within { slice_index self.now.runs.cuts (at + 1) ≤ length self.now.runs.order }
        ensures { result.now ≡ run_at self.now.runs.order self.now.runs.cuts at }
    {
        let cuts = self.runs.cuts.as_slice();
        let from = cuts[at] as usize;
        let to = cuts[at + 1] as usize;
        &self.runs.order.as_slice()[from..to]
    }

    /// The first row of the run with this number.
    pub(crate) fn first(&self, at: usize) -> u32
        requires at { at < length self.now.runs.cuts }
        requires within { slice_index self.now.runs.cuts at < length self.now.runs.order }
        ensures { result ≡ slice_index self.now.runs.order (slice_index self.now.runs.cuts at) }
    {
        let cuts = self.runs.cuts.as_slice();
        self.runs.order.as_slice()[cuts[at] as usize]
    }
}
