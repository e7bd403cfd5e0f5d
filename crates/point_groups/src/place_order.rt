//! A point taken in among points of other places, where these ascend.
ghost use Rattle.std.specs.Prelude.{◌≡◌, ◌↔◌, ◌<◌, ◌-◌, ◌++◌, ◌∷◌, [], IfErr, IfOk, IsTrue, OnOk, get_or, length, map, true, false};
ghost use Rattle.std.specs.declared.cmp.Ordering.TheVariants.{Greater};
ghost use Rattle.cube_point.specs.declared.point.Entry as entries;
ghost use Rattle.cube_point.specs.declared.point.Point as points;
ghost use Rattle.cube_point.specs.Points.{point_cmp};
ghost use Rattle.row_fold.specs.Ascends.{Ascends};
ghost use Rattle.spec_points.specs.Entries.{pair_of};
ghost use Rattle.point_groups.specs.Folded.{AllApart, NoneAt};
ghost use Rattle.point_groups.specs.Held.{AllEndInZeros};
ghost use Rattle.point_groups.specs.Kept.{StaysApart, TookIn, at_point, kept, place_of, same_place};
ghost use Rattle.point_groups.specs.declared.stop.RowsStop.TheVariants as stops;

use crate::grouped_place::is_kept_at;
use crate::point_list::FlatPoints;
use crate::stop::RowsStop;
use cube_point::{Entry, Point, compare};
use fact_model::Memory;
use page_entry::Coded;
use std::cmp::Ordering;

/// Whether there is a last point, and a lent one has these coordinates of its place.
pub(crate) fn is_at_last(groups: &FlatPoints, dims: &[bool; 8], entry: &Coded<'_>) -> bool
    ensures { (d : entries.Entry) → IsTrue result
        ↔ (0 < length groups.now) × (kept dims.now entry.now.point.at ≡ kept dims.now (place_of (get_or groups.now (length groups.now - 1) d))) }
{
    let count = groups.len();
    count != 0 && is_kept_at(dims, &groups.point(count - 1).at, entry)
}

/// Joins the point to the one of its place, where they join. Its place is any that it is told by.
pub(crate) fn join_at(groups: &mut FlatPoints, at: usize, entry: &Coded<'_>) -> Result<(), RowsStop>
    requires { at < length groups.old }

    ensures took { (p : points.Point) → same_place (get_or groups.old at (at_point p entry.now)).point.at p.at ≡ true → AllApart same_place (map pair_of groups.old)
        → AllEndInZeros groups.old → OnOk result (TookIn groups.old groups.new (at_point p entry.now)) }
    ensures apart { (p : points.Point) → same_place (get_or groups.old at (at_point p entry.now)).point.at p.at ≡ true
        → IfErr result (λ stop. stop ≡ stops.Damaged → StaysApart groups.old (at_point p entry.now)) }
    ensures places { OnOk result (map place_of groups.new ≡ map place_of groups.old) }
    ensures zeros { AllEndInZeros groups.old → OnOk result (AllEndInZeros groups.new) }
{
    groups.join(at, entry)
}

/// Puts the point of a new place behind the others.
pub(crate) fn append(
    groups: &mut FlatPoints,
    point: &Point,
    entry: &Coded<'_>,
) -> Result<(), Memory>
    ensures took { NoneAt same_place point.now.at (map pair_of groups.old)
        → OnOk result (TookIn groups.old groups.new (at_point point.now entry.now)) }
    ensures places { OnOk result (map place_of groups.new ≡ map place_of groups.old ++ point.now.at ∷ []) }
    ensures zeros { AllEndInZeros groups.old → OnOk result (AllEndInZeros groups.new) }
{
    groups.push(Entry {
        point: *point,
        cell: entry.cell(),
    })?;
    Ok(())
}

/// Takes in a point that does not come before the last one. False, where it comes before it: then nothing is changed.
pub(crate) fn gather_next(
    groups: &mut FlatPoints,
    point: &Point,
    entry: &Coded<'_>,
) -> Result<bool, RowsStop>
    ensures took { Ascends point_cmp (map pair_of groups.old) → AllEndInZeros groups.old
        → IfOk result (λ is. is ≡ true → TookIn groups.old groups.new (at_point point.now entry.now)) }
    ensures ascends { Ascends point_cmp (map pair_of groups.old) → AllEndInZeros groups.old
        → OnOk result (Ascends point_cmp (map pair_of groups.new)) }
    ensures zeros { AllEndInZeros groups.old → OnOk result (AllEndInZeros groups.new) }
    ensures same { IfOk result (λ is. is ≡ false → groups.new ≡ groups.old) }
    ensures before { (d : entries.Entry) → IfOk result (λ is. is ≡ false
        → (0 < length groups.old) × (point_cmp (place_of (get_or groups.old (length groups.old - 1) d)) point.now.at ≡ Greater)) }
    ensures damaged { Ascends point_cmp (map pair_of groups.old)
        → IfErr result (λ stop. stop ≡ stops.Damaged → StaysApart groups.old (at_point point.now entry.now)) }
{
    let count = groups.len();
    if count == 0 {
        append(groups, point, entry)?;
        return Ok(true);
    }
    match compare(&groups.point(count - 1), point) {
        Ordering::Less => {
            append(groups, point, entry)?;
            Ok(true)
        }
        Ordering::Equal => {
            join_at(groups, count - 1, entry)?;
            Ok(true)
        }
        Ordering::Greater => Ok(false),
    }
}
