//! Whether a coarser view is the roll-up of a finer one.

ghost use Rattle.std.specs.Prelude.{◌≡◌, ◌↔◌, ◌<◌, ◌≤◌, ◌⊎◌, ℕ, Option, true, IfNone, IfOk, IfSome, IsTrue, get_or, length};
ghost use Rattle.fact_model.specs.declared.cell.Cell as cells;
ghost use Rattle.audit_points.specs.Kept.{points_of};
ghost use Rattle.page_entry.specs.Entries.{ascend, entry_before};
ghost use Rattle.spec_points.specs.Points.{View};
ghost use Rattle.audit_view.specs.Rolling.{AreDims, AreRead, RollsUp, projected_at};
ghost use Rattle.audit_view.specs.Totals.{AllSteady, AreCells, AreNone, HoldsSum, IsNowhere, IsOver, IsTakenIn};
ghost use Rattle.audit_view.specs.declared.total.Total as tallies;

use crate::finding::find;
use crate::place::projected;
use crate::total::Total;
use audit_points::ViewPoints;
use fact_model::Memory;
use page_entry::Coded;
use std::alloc::Global;

/// Whether the points of a coarser view are those of a finer one, grouped by the coarser view's attributes, with their cells joined.
/// `dims` are the finer view's dimensions that hold these attributes. The only error is out of memory.
pub fn is_roll_up(
    alloc: Global,
    fine: &ViewPoints,
    coarse: &ViewPoints,
    dims: &[usize],
) -> Result<bool, Memory>
    requires few { length dims.now ≤ 8 }
    requires measures { fine.now.shape.measures ≡ coarse.now.shape.measures }
    ensures { (fine_view coarse_view : View) → AreDims fine_view coarse_view dims.now → AreRead fine.now → AreRead coarse.now
        → IfOk result (λ is. IsTrue is ↔ RollsUp fine_view coarse_view (points_of fine.now) (points_of coarse.now)) }
{
    let mut totals = none(alloc, coarse.len())?;
    let mut near = 0;
    for index in 0..fine.len() {
        match take_in(&mut totals, coarse, &fine.point(index), dims, near) {
            Some(found) => near = found,
            None => return Ok(false),
        }
    }
    Ok(are_all(&totals, coarse))
}

/// `count` totals of nothing.
fn none(alloc: Global, count: usize) -> Result<Vec<Total>, Memory>
    ensures { IfOk result (λ totals. AreNone count totals.items) }
{
    let mut totals = Vec::with_capacity(alloc, count)?;
    for _ in 0..count {
        totals.push(Total::none())?;
    }
    Ok(totals)
}

/// Joins the cell of a point of the finer view to the total of its point in the coarser view, and returns that point's number. `None` if
/// there is no such point, the cell has no facts, or the count there passes 64 bits.
fn take_in(
    totals: &mut Vec<Total>,
    coarse: &ViewPoints,
    entry: &Coded<'_>,
    dims: &[usize],
    near: usize,
) -> Option<usize>
    requires few { length dims.now ≤ 8 }
    requires near { near ≤ length (points_of coarse.now) }
    requires long { length totals.old.items ≡ length (points_of coarse.now) }
    requires steady { AllSteady totals.old.items }
    ensures taken { IfSome result (IsTakenIn (points_of coarse.now) (projected_at dims.now entry.now.point.at) entry.now.cell totals.old.items totals.new.items) }
    ensures none { ascend entry_before (points_of coarse.now) ≡ true → 0 < entry.now.cell.count
        → IfNone result (IsNowhere (points_of coarse.now) (projected_at dims.now entry.now.point.at)
        ⊎ IsOver (points_of coarse.now) (projected_at dims.now entry.now.point.at) entry.now.cell totals.old.items) }
{
    let found = find(coarse, &projected(entry, dims), near)?;
    if totals[found].add(&entry.cell()) {
        Some(found)
    } else {
        None
    }
}

/// Whether the total at each point of the coarser view is its cell.
fn are_all(totals: &Vec<Total>, coarse: &ViewPoints) -> bool
    requires { length totals.now.items ≡ length (points_of coarse.now) }
    ensures { (sums : ℕ → Option cells.Cell) → AreRead coarse.now
        → ((i : ℕ) (t : tallies.Total) → i < length (points_of coarse.now) → HoldsSum coarse.now.shape.measures (sums i) (get_or totals.now.items i t))
        → IsTrue result ↔ AreCells sums (points_of coarse.now) }
{
    for index in 0..coarse.len() {
        if !totals[index].is(&coarse.point(index).cell()) {
            return false;
        }
    }
    true
}
