//! The order of points by their keys.
ghost use Rattle.std.specs.Prelude.{◌≡◌, ◌↔◌, ◌<◌, All, IfOk, IsTrue, length};
ghost use Rattle.slice_rows.specs.Grouped.{IsOrderOf, KeysAscend};

use crate::keys::compare_keys;
use crate::order_index::each_number;
use crate::rank_sort::order_by_ranks;
use attr_dict::Dicts;
use fact_model::Memory;
use point_groups::FlatPoints;
use std::alloc::Global;

/// The numbers of points in the order of their keys.
#[derive(Drop)]
pub(crate) struct Order {
    /// The numbers.
    pub(crate) numbers: Vec<usize>,
    /// Whether no two points have one key.
    pub(crate) is_strict: bool,
}

/// The order of points by their keys. Those of one key stay in their order.
pub(crate) fn order_of(
    alloc: Global,
    names: &Dicts,
    view: &[u32],
    group: &[u32],
    points: &FlatPoints,
) -> Result<Order, Memory>
    requires { All (λ a. a < length names.now.kinds) group.now }
    ensures { IfOk result (IsOrderOf names.now view.now group.now points.now) }
{
    if do_ascend(names, view, group, points) {
        return Ok(Order {
            numbers: each_number(alloc, points.len())?,
            is_strict: true,
        });
    }
    order_by_ranks(alloc, names, view, group, points)
}

/// Whether the key of each point comes before that of the next.
fn do_ascend(names: &Dicts, view: &[u32], group: &[u32], points: &FlatPoints) -> bool
    requires { All (λ a. a < length names.now.kinds) group.now }
    ensures { IsTrue result ↔ KeysAscend names.now view.now group.now points.now }
{
    for i in 1..points.len() {
        if !compare_keys(names, view, group, points, i - 1, i).is_lt() {
            return false;
        }
    }
    true
}
