//! A point taken in among points of other places, where an index has these.
ghost use Rattle.std.specs.Prelude.{◌≡◌, ◌↔◌, ◌<◌, IfErr, IfOk, IsTrue, OnOk, get_or, length, map, true};
ghost use Rattle.cube_point.specs.declared.point.Entry as points;
ghost use Rattle.spec_points.specs.Entries.{pair_of};
ghost use Rattle.point_groups.specs.Folded.{AllApart};
ghost use Rattle.point_groups.specs.Held.{AllEndInZeros, IsIndexed};
ghost use Rattle.point_groups.specs.Kept.{StaysApart, TookIn, at_point, same_place};
ghost use Rattle.point_groups.specs.declared.stop.RowsStop.TheVariants as stops;

use crate::group_hints::Hints;
use crate::place_order::{append, join_at};
use crate::point_list::FlatPoints;
use crate::stop::RowsStop;
use cube_point::Point;
use fact_model::Memory;
use indexmap::IndexSet;
use page_entry::Coded;
use std::alloc::Global;

/// An index of the places of points.
pub(crate) fn index_of(alloc: Global, groups: &FlatPoints) -> Result<IndexSet<[u64; 8]>, Memory>
    ensures { AllApart same_place (map pair_of groups.now) → IfOk result (λ index. IsIndexed groups.now index.keys) }
{
    let mut index = IndexSet::with_capacity(alloc, groups.len())?;
    for number in 0..groups.len() {
        index.insert(groups.point(number).at)?;
    }
    Ok(index)
}

/// Whether a group has the place.
fn is_at(groups: &FlatPoints, number: usize, place: &[u64; 8]) -> bool
    ensures { (d : points.Entry) → IsTrue result ↔ (number < length groups.now) × (same_place (get_or groups.now number d).point.at place.now ≡ true) }
{
    number < groups.len() && *place == groups.point(number).at
}

/// Takes in a point, wherever its place comes among the others. Where the hint for its place tells the group, the index is not asked.
pub(crate) fn gather_any(
    groups: &mut FlatPoints,
    index: &mut IndexSet<[u64; 8]>,
    hints: &mut Hints,
    point: &Point,
    entry: &Coded<'_>,
) -> Result<(), RowsStop>
    ensures took { IsIndexed groups.old index.old.keys → AllEndInZeros groups.old
        → OnOk result (TookIn groups.old groups.new (at_point point.now entry.now)) }
    ensures index { IsIndexed groups.old index.old.keys → AllEndInZeros groups.old
        → OnOk result (IsIndexed groups.new index.new.keys) }
    ensures zeros { AllEndInZeros groups.old → OnOk result (AllEndInZeros groups.new) }
    ensures damaged { IsIndexed groups.old index.old.keys
        → IfErr result (λ stop. stop ≡ stops.Damaged → StaysApart groups.old (at_point point.now entry.now)) }
{
    let hint = hints.at(&point.at);
    if is_at(groups, hint, &point.at) {
        return join_at(groups, hint, entry);
    }
    let (at, _) = index.insert_full(point.at)?;
    hints.note(&point.at, at);
    if at < groups.len() {
        return join_at(groups, at, entry);
    }
    append(groups, point, entry)?;
    Ok(())
}
