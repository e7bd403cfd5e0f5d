//! The rows of a batch in the order of a view, sorted by the places themselves.
ghost use Rattle.std.specs.Prelude.{◌≡◌, ◌<◌, ◌≤◌, ◌^◌, IfOk, length, map};
ghost use Rattle.std.specs.List.{All, range_with_len};
ghost use Rattle.std.specs.Ordering.{is_eq};
ghost use Rattle.cube_point.specs.Points.{comes_before, point_cmp};
ghost use Rattle.delta_agg.specs.Batch.{HasPlace, place_at, point_at};
ghost use Rattle.delta_agg.specs.Placed.{placed_at};
ghost use Rattle.delta_agg.specs.Rows.{IsOrdered};

use crate::keys::{RowKey, runs_of_keys};
use crate::runs::Runs;
use cube_point::{Point, compare};
use fact_batch::FlatRows;
use fact_model::Memory;
use std::alloc::Global;

/// A row with its point in a view.
#[derive(Clone, Copy, Debug, PartialEq, Eq)]
pub(crate) struct Placed {
    /// The point.
    pub(crate) point: Point,
    /// The row.
    pub(crate) row: u32,
}

impl RowKey for Placed {
    ghost row_of = { λ p. p.row };

    ghost before = { λ p q. comes_before p.point q.point };

    ghost same = { λ p q. is_eq (point_cmp p.point.at q.point.at) };

    fn row(&self) -> u32 {
        self.row
    }

    fn has_place_of(&self, other: &Placed) -> bool {
        compare(&self.point, &other.point).is_eq()
    }

    fn sort(keys: &mut [Placed]) {
        keys.sort_unstable_by(|a, b| compare(&a.point, &b.point));
    }
}

/// The place of the coordinates in the view.
pub(crate) fn place(view: &[u32], coordinates: &[u64]) -> [u64; 8]
    requires arity { length view.now ≤ 8 }
    requires place { HasPlace view.now coordinates.now }
    ensures { result ≡ place_at view.now coordinates.now }
{
    let mut at = [0; 8];
    for (i, attr) in view.iter().enumerate() {
        at[i] = coordinates[*attr as usize];
    }
    at
}

/// The point of the coordinates in the view.
pub(crate) fn point(view: &[u32], coordinates: &[u64]) -> Point
    requires arity { length view.now ≤ 8 }
    requires place { HasPlace view.now coordinates.now }
    ensures { result ≡ point_at view.now coordinates.now }
{
    Point {
        arity: view.len() as u8,
        at: place(view, coordinates),
    }
}

/// All rows in the order of their places in the view, cut into runs.
pub(crate) fn runs_by_places(
    alloc: Global,
    view: &[u32],
    coded: &FlatRows<u64>,
) -> Result<Runs, Memory>
    requires arity { length view.now ≤ 8 }
    requires places { All (HasPlace view.now) coded.now }
    requires rows { length coded.now ≤ 2 ^ 18 }
    ensures { IfOk result (λ runs. IsOrdered view.now coded.now runs.order runs.cuts) }
{
    let mut placed = placed_of(alloc, view, coded)?;
    runs_of_keys(alloc, &mut placed)
}

/// All rows with their points.
fn placed_of(alloc: Global, view: &[u32], coded: &FlatRows<u64>) -> Result<Vec<Placed>, Memory>
    requires arity { length view.now ≤ 8 }
    requires places { All (HasPlace view.now) coded.now }
    requires rows { length coded.now ≤ 2 ^ 18 }
    ensures { IfOk result (λ placed. placed.items ≡ map (placed_at view.now coded.now) (range_with_len 0 (length coded.now))) }
{
    let mut placed = Vec::with_capacity(alloc, coded.len())?;
    for row in 0..coded.len() {
        placed.push(Placed {
            point: point(view, coded.row(row)),
            row: row as u32,
        })?;
    }
    Ok(placed)
}
