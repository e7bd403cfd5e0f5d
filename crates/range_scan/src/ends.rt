//! Whether a whole leaf lies in the region, by its first and its last point.

ghost use Rattle.std.specs.Prelude.{◌≡◌, ◌≢◌, ◌↔◌, ◌<◌, ◌≤◌, ◌+◌, ℕ, IsTrue, filter, length, slice_index};
ghost use Rattle.page_entry.specs.Entries.{HasEntries, entries, page_count};
ghost use Rattle.page_entry.specs.Stored.{IsCoordinate};
ghost use Rattle.page_fmt.specs.Writing.{AreEntries};
ghost use Rattle.range_scan.specs.Ends.{DoEndsTellAll, IsOpenBefore, TellAll};
ghost use Rattle.range_scan.specs.Meeting.{is_inside};

use cube_point::{Point, Region, Shape, inside};
use page_entry::{PAGE, lent_entry};

/// Whether the ends of an accepted leaf show that all its points lie in the region.
pub(crate) fn is_whole(page: &[u8; PAGE], shape: &Shape, count: u16, region: &Region) -> bool
    requires page { HasEntries shape.now page.now }
    requires said { count ≡ page_count page.now }
    requires some { 0 < count }
    requires count { count ≡ length (entries shape.now page.now) }
    requires holds { AreEntries shape.now (entries shape.now page.now) }

    ensures whole { IsTrue result → filter (is_inside region.now) (entries shape.now page.now) ≡ entries shape.now page.now }
    ensures told { IsTrue result ↔ DoEndsTellAll shape.now.wide (entries shape.now page.now) region.now }
{
    let first = lent_entry(page, shape, 0);
    let last = lent_entry(page, shape, count as usize - 1);
    tell_all(&first.point(), &last.point(), region, shape.wide)
}

/// Whether all points between two in point order lie in the region. Past the last dimension in which the two differ they
/// have the coordinates of both, in that dimension one between theirs, and before it any.
fn tell_all(first: &Point, last: &Point, region: &Region, wide: bool) -> bool
    ensures { IsTrue result ↔ TellAll wide first.now last.now region.now }
{
    inside(first, region)
        && inside(last, region)
        && is_open_before(region, wide, last_apart(first, last))
}

/// The last dimension in which two points differ; the first dimension if they do not.
fn last_apart(first: &Point, last: &Point) -> usize
    ensures few { result < 8 }
    ensures same { (i : ℕ) → result < i → i < 8 → slice_index first.now.at i ≡ slice_index last.now.at i }
    ensures apart { 0 < result → slice_index first.now.at result ≢ slice_index last.now.at result }
{
    for skipped in 0..7 {
        let dimension: usize = 7 - skipped;
        if first.at[dimension] != last.at[dimension] {
            return dimension;
        }
    }
    0
}

/// Whether the region holds every used coordinate of a page in each dimension before this one.
fn is_open_before(region: &Region, wide: bool, dimension: usize) -> bool
    requires { dimension ≤ 8 }
    ensures { IsTrue result ↔ IsOpenBefore wide dimension region.now }
{
    first_bound(region, wide, dimension) == dimension
}

/// The first of `dimensions` dimensions in which the region does not hold every used coordinate of a page; `dimensions` if there is
/// none.
pub(crate) fn first_bound(region: &Region, wide: bool, dimensions: usize) -> usize
    requires { dimensions ≤ 8 }
    ensures few { result ≤ dimensions }
    ensures before { IsOpenBefore wide result region.now }
    ensures bound { result < dimensions → IsOpenBefore wide (result + 1) region.now → ⊥ }
{
    let most = greatest_coordinate(wide);
    for i in 0..dimensions {
        if region.bounds.low[i] > 1 || region.bounds.high[i] < most {
            return i;
        }
    }
    dimensions
}

/// The greatest coordinate that a page of this width holds.
fn greatest_coordinate(wide: bool) -> u64
    ensures fits { IsCoordinate wide result }
    ensures most { (c : ℕ) → IsCoordinate wide c → c ≤ result }
{
    if wide { u64::MAX } else { u64::from(u32::MAX) }
}
