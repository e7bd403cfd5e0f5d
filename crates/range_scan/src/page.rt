//! What a search takes from one page.

ghost use Rattle.std.specs.Prelude.{◌≡◌, ◌<◌, ◌≤◌, ◌+◌, ◌*◌, ◌++◌, ◌^◌, ℕ, IsTrue, List, Ok, OnOk, IfErr, drop, filter, length};
ghost use Rattle.std.specs.Result.{IsErrOf};
ghost use Rattle.cube_point.specs.Boxes.{IsInside};
ghost use Rattle.cube_point.specs.declared.point.Entry as points;
ghost use Rattle.page_fmt.specs.InFiles.{IsPageOf};
ghost use Rattle.page_entry.specs.Entries.{HasEntries, entries, page_arity, page_count, point_of};
ghost use Rattle.page_entry.specs.Bytes.{width};
ghost use Rattle.page_fmt.specs.Taking.{taken};
ghost use Rattle.page_entry.specs.declared.size.TheConstants.{PAGE};
ghost use Rattle.page_fmt.specs.Writing.{AreEntries, IsShape};
ghost use Rattle.range_scan.specs.Meeting.{is_inside};
ghost use Rattle.range_scan.specs.Searching.{NamesPage};
ghost use Rattle.range_scan.specs.Steps.{AreAhead, ExplainsStop, IsVisited};
ghost use Rattle.range_scan.specs.Visits.{hits, page_of};

use crate::children::take_children;
use crate::ends::{first_bound, is_whole};
use crate::walk::{Query, SearchStop};
use cube_point::{Region, Shape};
use fact_model::Memory;
use page_entry::{HEADER, PAGE, coordinate_at, lent_entry, size_of_entry};
use page_fmt::{Head, Node, Taker};

/// Takes the points or the children of the page with this number, which was accepted with this head.
pub(crate) fn take_contents<G: Taker>(
    page: &[u8; PAGE],
    head: Head,
    query: &Query<'_>,
    number: u64,
    ahead: &mut Vec<u64>,
    taker: &mut G,
) -> Result<(), SearchStop>
    requires shape { IsShape query.now.tree.now.shape }
    requires few { query.now.tree.now.first + query.now.tree.now.pages ≤ 2 ^ 50 }
    requires from { query.now.tree.now.first ≤ number }
    requires within { number < query.now.tree.now.first + query.now.tree.now.pages }
    requires accepted { Ok head ≡ taken query.now.tree.now.shape number page.now }
    requires ahead { AreAhead query.now.tree.now ahead.old.items }

    ensures visited { (bytes : List ℕ) → IsPageOf bytes number page.now
        → OnOk result (IsVisited query.now.tree.now query.now.region.now bytes number ahead.old.items ahead.new.items) }
    ensures gives { (bytes : List ℕ) → IsPageOf bytes number page.now
        → (start : G) (es : List points.Entry) → G.was_given start es taker.old
        → OnOk result (G.was_given start (es ++ hits query.now.region.now (page_of query.now.tree.now.shape bytes number)) taker.new) }
    ensures stop { (bytes : List ℕ) → IsPageOf bytes number page.now → IfErr result (ExplainsStop query.now.tree.now bytes number) }
    ensures ahead { OnOk result (AreAhead query.now.tree.now ahead.new.items) }
    ensures names { IfErr result (NamesPage number 1) }
    ensures no_call { IsErrOf result SearchStop.Disk → ⊥ }
{
    if head.node == Node::Leaf {
        take_points(page, query, head.count, taker)?;
    } else if !take_children(page, query, head.count, ahead)? {
        return Err(SearchStop::Damaged { page: number });
    }
    Ok(())
}

/// Gives the points of a leaf that lie in the region to the taker.
fn take_points<G: Taker>(
    page: &[u8; PAGE],
    query: &Query<'_>,
    count: u16,
    taker: &mut G,
) -> Result<(), Memory>
    requires page { HasEntries query.now.tree.now.shape page.now }
    requires said { count ≡ page_count page.now }
    requires some { 0 < count }
    requires count { count ≡ length (entries query.now.tree.now.shape page.now) }
    requires holds { AreEntries query.now.tree.now.shape (entries query.now.tree.now.shape page.now) }

    ensures { (start : G) (es : List points.Entry) → G.was_given start es taker.old → OnOk result (G.was_given start
        (es ++ filter (is_inside query.now.region.now) (entries query.now.tree.now.shape page.now)) taker.new) }
{
    if is_whole(page, &query.tree.shape, count, query.region) {
        return take_all(page, &query.tree.shape, count, taker);
    }
    take_inside(page, query, count, taker)
}

/// Gives all points of a leaf to the taker.
fn take_all<G: Taker>(
    page: &[u8; PAGE],
    shape: &Shape,
    count: u16,
    taker: &mut G,
) -> Result<(), Memory>
    requires page { HasEntries shape.now page.now }
    requires said { count ≡ page_count page.now }
    requires count { count ≡ length (entries shape.now page.now) }

    ensures { (start : G) (es : List points.Entry) → G.was_given start es taker.old
        → OnOk result (G.was_given start (es ++ entries shape.now page.now) taker.new) }
{
    for index in 0..count as usize {
        taker.take(&lent_entry(page, shape, index))?;
    }
    Ok(())
}

/// Gives the points of a leaf that lie in the region to the taker, testing each one. A separate function, so that its loops have all registers. It
/// tests once whether coordinates are wide.
#[inline(never)]
#[tactic(auto, using(page_entry::proofs::Widths::as_it_is))]
fn take_inside<G: Taker>(
    page: &[u8; PAGE],
    query: &Query<'_>,
    count: u16,
    taker: &mut G,
) -> Result<(), Memory>
    requires page { HasEntries query.now.tree.now.shape page.now }
    requires said { count ≡ page_count page.now }
    requires count { count ≡ length (entries query.now.tree.now.shape page.now) }

    ensures { (start : G) (es : List points.Entry) → G.was_given start es taker.old → OnOk result (G.was_given start
        (es ++ filter (is_inside query.now.region.now) (entries query.now.tree.now.shape page.now)) taker.new) }
{
    let shape = &query.tree.shape;
    if shape.wide {
        let wide = Shape {
            wide: true,
            ..*shape
        };
        return take_by(page, &wide, query.region, count, taker);
    }
    let narrow = Shape {
        wide: false,
        ..*shape
    };
    take_by(page, &narrow, query.region, count, taker)
}

/// The same, for pages of this shape. A point is tested only if its coordinate in the first bound dimension lies in the region.
#[inline(always)]
fn take_by<G: Taker>(
    page: &[u8; PAGE],
    shape: &Shape,
    region: &Region,
    count: u16,
    taker: &mut G,
) -> Result<(), Memory>
    requires page { HasEntries shape.now page.now }
    requires said { count ≡ page_count page.now }
    requires count { count ≡ length (entries shape.now page.now) }

    ensures { (start : G) (es : List points.Entry) → G.was_given start es taker.old → OnOk result (G.was_given start
        (es ++ filter (is_inside region.now) (entries shape.now page.now)) taker.new) }
{
    let arity = page[1] as usize;
    let dimension = first_bound(region, shape.wide, arity);
    if dimension < arity {
        return take_bound(page, shape, region, dimension, count, taker);
    }
    take_each(page, shape, region, count, taker)
}

/// The same, testing each point.
#[inline(always)]
fn take_each<G: Taker>(
    page: &[u8; PAGE],
    shape: &Shape,
    region: &Region,
    count: u16,
    taker: &mut G,
) -> Result<(), Memory>
    requires page { HasEntries shape.now page.now }
    requires said { count ≡ page_count page.now }
    requires count { count ≡ length (entries shape.now page.now) }

    ensures { (start : G) (es : List points.Entry) → G.was_given start es taker.old → OnOk result (G.was_given start
        (es ++ filter (is_inside region.now) (entries shape.now page.now)) taker.new) }
{
    for index in 0..count as usize {
        let entry = lent_entry(page, shape, index);
        if entry.is_inside(region) {
            taker.take(&entry)?;
        }
    }
    Ok(())
}

/// The same, but one coordinate of each point is tested first, in its bytes.
#[inline(always)]
fn take_bound<G: Taker>(
    page: &[u8; PAGE],
    shape: &Shape,
    region: &Region,
    dimension: usize,
    count: u16,
    taker: &mut G,
) -> Result<(), Memory>
    requires page { HasEntries shape.now page.now }
    requires said { count ≡ page_count page.now }
    requires count { count ≡ length (entries shape.now page.now) }
    requires used { dimension < page_arity page.now }

    ensures { (start : G) (es : List points.Entry) → G.was_given start es taker.old → OnOk result (G.was_given start
        (es ++ filter (is_inside region.now) (entries shape.now page.now)) taker.new) }
{
    let size = size_of_entry(shape, page[1]);
    let mut next = HEADER;
    for index in 0..count as usize {
        let at = next;
        next += size;
        if is_out(page, shape.wide, at, region, dimension) {
            continue;
        }
        let entry = lent_entry(page, shape, index);
        if entry.is_inside(region) {
            taker.take(&entry)?;
        }
    }
    Ok(())
}

/// Whether the coordinate in `dimension` of the entry that begins at `at` shows that its point is outside the region.
#[inline(always)]
fn is_out(page: &[u8; PAGE], wide: bool, at: usize, region: &Region, dimension: usize) -> bool
    requires eight { dimension < 8 }
    requires place { at + (dimension + 1) * width wide ≤ PAGE }
    ensures { (arity : ℕ) → dimension < arity → IsTrue result → IsInside (point_of wide arity (drop at page.now)) region.now → ⊥ }
{
    let own = coordinate_at(page, wide, at, dimension);
    own < region.bounds.low[dimension] || region.bounds.high[dimension] < own
}
