//! Which children of an inner page a search visits, read from their bytes in place.

ghost use Rattle.std.specs.Prelude.{◌≡◌, ◌↔◌, ◌<◌, ◌≤◌, ◌+◌, ◌++◌, IsTrue, OnOk, IfOk, drop, length, reverse};
ghost use Rattle.std.specs.List.{All};
ghost use Rattle.page_fmt.specs.declared.page.Child.{Child};
ghost use Rattle.page_entry.specs.declared.size.TheConstants.{PAGE};
ghost use Rattle.page_fmt.specs.Lawful.{HasChildren};
ghost use Rattle.page_fmt.specs.Pages.{child_size};
ghost use Rattle.page_entry.specs.Entries.{page_count};
ghost use Rattle.page_fmt.specs.Taking.{child_of, children};
ghost use Rattle.page_fmt.specs.Writing.{AreChildren, IsBox};
ghost use Rattle.range_scan.specs.Meeting.{HoldsSome, is_met};
ghost use Rattle.range_scan.specs.Steps.{AreAhead};
ghost use Rattle.range_scan.specs.Visits.{met};

use crate::walk::Query;
use cube_point::{Region, Shape};
use fact_model::Memory;
use page_entry::{HEADER, PAGE};
use page_fmt::{child_page_at, ends_at, size_of_child};

/// Appends the children of an inner page whose boxes meet the region, the first child last, since the last page ahead is
/// visited next. False if a child comes before the tree's first page.
pub(crate) fn take_children(
    page: &[u8; PAGE],
    query: &Query<'_>,
    count: u16,
    ahead: &mut Vec<u64>,
) -> Result<bool, Memory>
    requires page { HasChildren query.now.tree.now.shape page.now }
    requires said { count ≡ page_count page.now }
    requires some { 0 < count }
    requires count { count ≡ length (children query.now.tree.now.shape page.now) }
    requires holds { AreChildren query.now.tree.now.shape (children query.now.tree.now.shape page.now) }
    requires below { All (λ (c : Child). c.page < query.now.tree.now.first + query.now.tree.now.pages) (children query.now.tree.now.shape page.now) }
    requires ahead { AreAhead query.now.tree.now ahead.old.items }

    ensures within { IfOk result (λ taken. IsTrue taken
        ↔ All (λ (c : Child). query.now.tree.now.first ≤ c.page) (children query.now.tree.now.shape page.now)) }
    ensures goes_on { IfOk result (λ taken. IsTrue taken
        → reverse ahead.new.items ≡ met query.now.region.now (children query.now.tree.now.shape page.now) ++ reverse ahead.old.items) }
    ensures ahead { OnOk result (AreAhead query.now.tree.now ahead.new.items) }
{
    let shape = &query.tree.shape;
    // The pages of children ascend, so the first one decides for all.
    if child_page_at(page, shape, HEADER) < query.tree.first {
        return Ok(false);
    }
    if !holds_some(query.region, shape.dims) {
        return Ok(true);
    }
    take_met(page, shape, query.region, count, ahead)?;
    Ok(true)
}

/// Whether a region holds a place that is zero past `dims` dimensions. If not, no box in these dimensions meets it.
fn holds_some(region: &Region, dims: u8) -> bool
    requires { dims ≤ 8 }
    ensures { IsTrue result ↔ HoldsSome dims region.now }
{
    for dimension in 0..8 {
        let most = if dimension < dims as usize {
            region.bounds.high[dimension]
        } else {
            0
        };
        if most < region.bounds.low[dimension] {
            return false;
        }
    }
    true
}

/// Appends the children that meet the region, the first child last. A separate function, so that its loops have all registers. It tests once
/// whether the ends are wide.
#[inline(never)]
#[tactic(auto, using(page_entry::proofs::Widths::as_it_is))]
fn take_met(
    page: &[u8; PAGE],
    shape: &Shape,
    region: &Region,
    count: u16,
    ahead: &mut Vec<u64>,
) -> Result<(), Memory>
    requires page { HasChildren shape.now page.now }
    requires said { count ≡ page_count page.now }
    requires count { count ≡ length (children shape.now page.now) }
    requires boxes { All (λ (c : Child). IsBox shape.now c.bounds) (children shape.now page.now) }
    requires some { HoldsSome shape.now.dims region.now }

    ensures { OnOk result (reverse ahead.new.items ≡ met region.now (children shape.now page.now) ++ reverse ahead.old.items) }
{
    if shape.wide {
        let wide = Shape {
            wide: true,
            ..*shape
        };
        return take_each(page, &wide, region, count, ahead);
    }
    let narrow = Shape {
        wide: false,
        ..*shape
    };
    take_each(page, &narrow, region, count, ahead)
}

/// The same, for pages of this shape.
#[inline(always)]
fn take_each(
    page: &[u8; PAGE],
    shape: &Shape,
    region: &Region,
    count: u16,
    ahead: &mut Vec<u64>,
) -> Result<(), Memory>
    requires page { HasChildren shape.now page.now }
    requires said { count ≡ page_count page.now }
    requires count { count ≡ length (children shape.now page.now) }
    requires boxes { All (λ (c : Child). IsBox shape.now c.bounds) (children shape.now page.now) }
    requires some { HoldsSome shape.now.dims region.now }

    ensures { OnOk result (reverse ahead.new.items ≡ met region.now (children shape.now page.now) ++ reverse ahead.old.items) }
{
    let size = size_of_child(shape);
    let mut at = HEADER + count as usize * size;
    for passed in 0..count {
        at -= size;
        if is_met(page, shape, at, region) {
            ahead.push(child_page_at(page, shape, at))?;
        }
    }
    Ok(())
}

/// Whether the box of the child that begins at a place meets a region. The last dimension is tested first, since points are ordered by it
/// first.
#[inline(always)]
fn is_met(page: &[u8; PAGE], shape: &Shape, at: usize, region: &Region) -> bool
    requires place { at + child_size shape.now ≤ PAGE }
    requires dims { shape.now.dims ≤ 8 }
    requires ends { IsBox shape.now (child_of shape.now (drop at page.now)).bounds }
    requires some { HoldsSome shape.now.dims region.now }

    ensures { result ≡ is_met region.now (child_of shape.now (drop at page.now)).bounds }
{
    let dims = shape.dims as usize;
    for skipped in 0..dims {
        let dimension = dims - 1 - skipped;
        let (low, high) = ends_at(page, shape, at, dimension);
        if region.bounds.high[dimension] < low || high < region.bounds.low[dimension] {
            return false;
        }
    }
    true
}
