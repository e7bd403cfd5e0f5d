//! Whether a point lies in a region, where its bytes lie.

ghost use Rattle.std.specs.Prelude.{◌≡◌, ◌↔◌, ◌≤◌, ◌<◌, ◌*◌, ℕ, IsTrue, length, slice_index};
ghost use Rattle.cube_point.specs.Boxes.{IsInside};
ghost use Rattle.page_entry.specs.Bytes.{width};
ghost use Rattle.page_entry.specs.Entries.{point_of};

use crate::order::coordinate_at;
use cube_point::{Bounds, Region};

/// Whether the used coordinates of the entry in front of the bytes lie between the ends of a box.
#[inline(always)]
fn are_used_inside(bytes: &[u8], wide: bool, arity: u8, bounds: &Bounds) -> bool
    requires arity { arity ≤ 8 }
    requires place { arity * width wide ≤ length bytes.now }
    ensures { IsTrue result ↔ ((i : ℕ) → i < arity
        → (slice_index bounds.now.low i ≤ slice_index (point_of wide arity bytes.now).at i)
        × (slice_index (point_of wide arity bytes.now).at i ≤ slice_index bounds.now.high i)) }
{
    for dimension in 0..arity as usize {
        let own = coordinate_at(bytes, wide, 0, dimension);
        if own < bounds.low[dimension] {
            return false;
        }
        if bounds.high[dimension] < own {
            return false;
        }
    }
    true
}

/// Whether zero lies between the ends of a box in each dimension past an arity.
fn is_zero_inside(bounds: &Bounds, arity: u8) -> bool
    ensures { IsTrue result ↔ ((i : ℕ) → arity ≤ i → i < 8 → slice_index bounds.now.low i ≡ 0) }
{
    for dimension in arity as usize..8 {
        if bounds.low[dimension] != 0 {
            return false;
        }
    }
    true
}

/// The same, where it is asked once whether the coordinates are wide.
fn is_inside_used(bytes: &[u8], wide: bool, arity: u8, bounds: &Bounds) -> bool
    requires arity { arity ≤ 8 }
    requires place { arity * width wide ≤ length bytes.now }
    ensures { IsTrue result ↔ ((i : ℕ) → i < arity
        → (slice_index bounds.now.low i ≤ slice_index (point_of wide arity bytes.now).at i)
        × (slice_index (point_of wide arity bytes.now).at i ≤ slice_index bounds.now.high i)) }
{
    if wide {
        are_used_inside(bytes, true, arity, bounds)
    } else {
        are_used_inside(bytes, false, arity, bounds)
    }
}

/// Whether the point of the entry in front of the bytes lies in a region, and has its arity.
pub(crate) fn lies_in(bytes: &[u8], wide: bool, arity: u8, region: &Region) -> bool
    requires arity { arity ≤ 8 }
    requires place { arity * width wide ≤ length bytes.now }
    ensures { IsTrue result ↔ IsInside (point_of wide arity bytes.now) region.now }
{
    if arity != region.arity {
        return false;
    }
    if !is_inside_used(bytes, wide, arity, &region.bounds) {
        return false;
    }
    is_zero_inside(&region.bounds, arity)
}
