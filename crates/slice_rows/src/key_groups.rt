//! Points in the order of their keys, and those of one key joined.
ghost use Rattle.std.specs.Prelude.{◌≡◌, ◌<◌, ◌↔◌, All, IfErr, IfOk, IsTrue, OnErr, OnOk, get_or, length, map};
ghost use Rattle.fact_model.specs.Cell.{join};
ghost use Rattle.fact_model.specs.Value.{Key, key_cmp};
ghost use Rattle.row_fold.specs.Squeezed.{squeezed};
ghost use Rattle.spec_points.specs.Entries.{both};
ghost use Rattle.point_groups.specs.Bare.{nowhere};
ghost use Rattle.point_groups.specs.Joins.{Joins};
ghost use Rattle.point_groups.specs.declared.stop.RowsStop.TheVariants as stops;
ghost use Rattle.slice_rows.specs.Grouped.{AllJoin, AreNumbers, NeighboursJoin, by_key, cells_of, keyed, picked};

use crate::key_order::order_of;
use crate::keys::compare_keys;
use crate::order_index::OrderedPoints;
use attr_dict::Dicts;
use cube_point::Entry;
use fact_model::Cell;
use point_groups::{FlatPoints, RowsStop};
use std::alloc::Global;

/// For each key of grouped values, ascending, the first point with the joined cell of all points of the key. `Damaged` comes where the
/// cells of a key do not join.
pub(crate) fn joined_points(
    alloc: Global,
    names: &Dicts,
    view: &[u32],
    group: &[u32],
    points: FlatPoints,
) -> Result<OrderedPoints, RowsStop>
    requires { All (λ a. a < length names.now.kinds) group.now }
    ensures joined { IfOk result (λ joined. map (keyed names.now view.now group.now) joined ≡ by_key names.now view.now group.now points) }
    ensures join { IfOk result (λ _. (k : Key) → AllJoin (cells_of names.now view.now group.now k points)) }
    ensures damaged { IfErr result (λ stop. stop ≡ stops.Damaged
        → ((k : Key) → AllJoin (cells_of names.now view.now group.now k points)) → ⊥) }
{
    let order = order_of(alloc, names, view, group, &points)?;
    if order.is_strict {
        return Ok(OrderedPoints::new(points, order.numbers));
    }
    let joined = join_equal(alloc, names, view, group, &points, &order.numbers)?;
    let ordered = OrderedPoints::in_turn(alloc, joined)?;
    Ok(ordered)
}

/// The points with those of one key joined, where the numbers have them in the order of their keys: of each key the first point, with the
/// joined cell.
fn join_equal(
    alloc: Global,
    names: &Dicts,
    view: &[u32],
    group: &[u32],
    points: &FlatPoints,
    sorted: &[usize],
) -> Result<FlatPoints, RowsStop>
    requires group { All (λ a. a < length names.now.kinds) group.now }
    requires numbers { AreNumbers points.now sorted.now }
    ensures joined { IfOk result (λ joined. map (keyed names.now view.now group.now) joined
        ≡ squeezed key_cmp join (map (keyed names.now view.now group.now) (picked points.now sorted.now))) }
    ensures join { IfOk result (λ _. NeighboursJoin (map (keyed names.now view.now group.now) (picked points.now sorted.now))) }
    ensures damaged { IfErr result (λ stop. stop ≡ stops.Damaged → NeighboursJoin (map (keyed names.now view.now group.now) (picked points.now sorted.now)) → ⊥) }
{
    let mut joined = FlatPoints::new(alloc);
    let Some((first, rest)) = sorted.split_first() else {
        return Ok(joined);
    };
    let mut key = *first;
    let mut last = entry_of(points, *first);
    for number in rest {
        let entry = entry_of(points, *number);
        if compare_keys(names, view, group, points, key, *number).is_eq() {
            take_in(&mut last, &entry)?;
        } else {
            joined.push(last)?;
            key = *number;
            last = entry;
        }
    }
    joined.push(last)?;
    Ok(joined)
}

/// The point of a number with its cell.
fn entry_of(points: &FlatPoints, number: usize) -> Entry
    requires { number < length points.now }
    ensures { result ≡ get_or points.now number nowhere }
{
    Entry {
        point: points.point(number),
        cell: points.cell(number),
    }
}

/// Joins the cell of the next point to that of the last one, where they join.
pub(crate) fn take_in(last: &mut Entry, next: &Entry) -> Result<(), RowsStop>
    ensures joined { OnOk result (last.new ≡ both last.old next.now) }
    ensures joins { OnOk result (Joins last.old.cell next.now.cell) }
    ensures stop { IfErr result (λ stop. stop ≡ stops.Damaged) }
    ensures apart { OnErr result (Joins last.old.cell next.now.cell → ⊥) }
{
    if !joins(&last.cell, &next.cell) {
        return Err(RowsStop::Damaged);
    }
    last.cell.join(&next.cell);
    Ok(())
}

/// Whether two cells join.
fn joins(first: &Cell, second: &Cell) -> bool
    ensures { IsTrue result ↔ Joins first.now second.now }
{
    first.measures == second.measures && first.fits(second)
}
