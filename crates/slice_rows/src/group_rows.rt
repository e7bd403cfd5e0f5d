//! The rows of a slice from the points of a view, grouped by their coordinates.
ghost use Rattle.std.specs.Prelude.{◌≡◌, ◌<◌, ◌^◌, ℕ, List, true, All, IfErr, IfOk, length};
ghost use Rattle.std.specs.List.{list_all};
ghost use Rattle.fact_model.specs.declared.fact.Fact as facts;
ghost use Rattle.fact_model.specs.Rows.{rows};
ghost use Rattle.cube_point.specs.declared.point.Entry as points;
ghost use Rattle.spec_points.specs.Agree.{among};
ghost use Rattle.spec_points.specs.Light.{KeepMasses};
ghost use Rattle.attr_dict.specs.Book.{names_at};
ghost use Rattle.point_groups.specs.Held.{AreOf, WereGiven};
ghost use Rattle.point_groups.specs.declared.groups.Groups as gatherers;
ghost use Rattle.point_groups.specs.declared.stop.RowsStop.TheVariants as stops;
ghost use Rattle.slice_rows.specs.Grouped.{Answers, AreSound, HasForm, has_values, points_inside, rows_from};
ghost use Rattle.slice_rows.specs.Sound.{GiveRows};

use crate::key_groups::joined_points;
use crate::keys::has_values;
use crate::rows::SliceRows;
use attr_dict::Dicts;
use fact_model::Slice;
use point_groups::{FlatPoints, Groups, RowsStop};
use std::alloc::Global;

/// The rows of a slice, from the points that the groups were given: those of a view that lie in its region. There is one for each
/// key of values of the grouped attributes, ascending by key, with the columns over the joined cells of the points of that key. The
/// view has all grouped attributes, and `names` are those of the facts. `Damaged` comes exactly where the points of some place did
/// not join, a grouped coordinate stands for no value, or the cells of some key do not join, unless memory is wanting first; so never
/// where the points are those of facts.
pub fn rows_of<'a>(
    alloc: Global,
    names: &'a Dicts,
    view: &'a [u32],
    slice: &'a Slice,
    groups: Groups,
) -> Result<SliceRows<'a>, RowsStop>
    requires declared { All (λ a. a < length names.now.kinds) view.now }
    requires group { All (λ a. among view.now a ≡ true) slice.now.group }

    // Whatever points they are.
    ensures grouped { (start : gatherers.Groups) (es : List points.Entry) → AreOf slice.now.group view.now start → WereGiven start es groups
        → IfOk result (λ found. found ≡ rows_from names.now view.now slice.now es) }
    ensures form { IfOk result (All (HasForm names.now slice.now)) }
    ensures sound { (start : gatherers.Groups) (es : List points.Entry) → AreOf slice.now.group view.now start → WereGiven start es groups
        → IfOk result (λ _. GiveRows names.now view.now slice.now.group es) }
    ensures damaged { (start : gatherers.Groups) (es : List points.Entry) → AreOf slice.now.group view.now start → WereGiven start es groups
        → IfErr result (λ stop. stop ≡ stops.Damaged → GiveRows names.now view.now slice.now.group es → ⊥) }

    // Where they are those of facts.
    ensures rows { (start : gatherers.Groups) (measures : ℕ) (facts : List facts.Fact) → AreOf slice.now.group view.now start
        → Answers names.now view.now slice.now facts → WereGiven start (points_inside names.now measures view.now slice.now facts) groups
        → IfOk result (λ found. found ≡ rows facts slice.now) }
    ensures never { (start : gatherers.Groups) (measures : ℕ) (facts : List facts.Fact) → AreOf slice.now.group view.now start
        → Answers names.now view.now slice.now facts → WereGiven start (points_inside names.now measures view.now slice.now facts) groups
        → KeepMasses facts → length facts < 2 ^ 64 → IfErr result (λ stop. stop ≡ stops.Memory) }
{
    let Some(joined) = groups.points() else {
        return Err(RowsStop::Damaged);
    };
    few_names(names);
    rows_by(alloc, names, view, slice, joined)
}

/// The rows of points: one for each key of values of the grouped attributes, ascending by key, with the columns over the joined cells of
/// the points of that key. The view has all grouped attributes. `Damaged` comes exactly where a grouped coordinate stands for no value,
/// or where the cells of some key, one after another, do not join, unless memory is wanting first.
fn rows_by<'a>(
    alloc: Global,
    names: &'a Dicts,
    view: &'a [u32],
    slice: &'a Slice,
    points: FlatPoints,
) -> Result<SliceRows<'a>, RowsStop>
    requires declared { All (λ a. a < length names.now.kinds) view.now }
    requires group { All (λ a. among view.now a ≡ true) slice.now.group }

    ensures grouped { IfOk result (λ found. found ≡ rows_from names.now view.now slice.now points) }
    ensures form { IfOk result (All (HasForm names.now slice.now)) }
    ensures sound { IfOk result (λ _. AreSound names.now view.now slice.now.group points) }
    ensures damaged { IfErr result (λ stop. stop ≡ stops.Damaged → AreSound names.now view.now slice.now.group points → ⊥) }
{
    let group = slice.group.as_slice();
    if !all_known(names, view, group, &points) {
        return Err(RowsStop::Damaged);
    }
    few_names(names);
    let joined = joined_points(alloc, names, view, group, points)?;
    Ok(SliceRows::new(names, view, slice, joined))
}

/// Whether the coordinates of the grouped attributes stand for values at all points.
fn all_known(names: &Dicts, view: &[u32], group: &[u32], points: &FlatPoints) -> bool
    requires { All (λ a. a < length names.now.kinds) group.now }
    ensures { result ≡ list_all (has_values names.now view.now group.now) points.now }
{
    for number in 0..points.len() {
        if !has_values(names, view, group, points, number) {
            return false;
        }
    }
    true
}

/// Shows that each attribute has fewer names than there are coordinates, so that every code is a coordinate.
fn few_names(names: &Dicts)
    ensures { (a : ℕ) → length (names_at names.now a) < 2 ^ 32 }
{
    let lengths = names.lengths();
    let _at = lengths.at;
}
