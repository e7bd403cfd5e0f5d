//! Points where their bytes lie: their coordinates and their order.

ghost use Rattle.std.specs.Prelude.{◌≡◌, ◌≤◌, ◌<◌, ◌+◌, ◌-◌, ◌*◌, ◌^◌, ◌==◌, ◌&&◌, ◌||◌, ℕ, IsTrue, drop, false, length, slice_index, true};
ghost use Rattle.cube_point.specs.Points.{comes_before, point_cmp};
ghost use Rattle.page_entry.specs.declared.size.TheConstants.{HEADER, PAGE};
ghost use Rattle.page_entry.specs.Bytes.{width};
ghost use Rattle.page_entry.specs.Entries.{are_positive, point_of};

use crate::size::{HEADER, NARROW, WIDE};
use be_numbers::{take_u32, take_u64};
use cube_point::Point;
use std::cmp::Ordering;

/// A used coordinate of the point of the entry that begins at a place.
#[inline(always)]
pub fn coordinate_at(bytes: &[u8], wide: bool, at: usize, dimension: usize) -> u64
    requires { at + (dimension + 1) * width wide ≤ length bytes.now }
    ensures { (arity : ℕ) → dimension < arity → result ≡ slice_index (point_of wide arity (drop at bytes.now)).at dimension }
{
    if wide {
        take_u64(bytes, at + dimension * WIDE)
    } else {
        u64::from(take_u32(bytes, at + dimension * NARROW))
    }
}

/// Whether a point has no coordinate past an arity but zeros.
fn is_zero_past(point: &Point, arity: u8) -> bool
    ensures zero { IsTrue result → (i : ℕ) → arity ≤ i → i < 8 → slice_index point.now.at i ≡ 0 }
    ensures other { result ≡ false → (i : ℕ) × (arity ≤ i) × (i < 8) × (0 < slice_index point.now.at i) }
    ensures eight { length point.now.at ≡ 8 }
{
    for dimension in arity as usize..8 {
        if point.at[dimension] != 0 {
            return false;
        }
    }
    true
}

/// How the point of the entry in front of the bytes stands to another of no more coordinates.
#[inline(always)]
fn compare_used(bytes: &[u8], wide: bool, arity: u8, point: &Point) -> Ordering
    requires arity { arity ≤ 8 }
    requires place { arity * width wide ≤ length bytes.now }
    requires zero { (i : ℕ) → arity ≤ i → i < 8 → slice_index point.now.at i ≡ 0 }
    ensures { result ≡ point_cmp (point_of wide arity bytes.now).at point.now.at }
{
    for skipped in 0..arity as usize {
        let dimension = arity as usize - 1 - skipped;
        let own = coordinate_at(bytes, wide, 0, dimension);
        if own != point.at[dimension] {
            return own.cmp(&point.at[dimension]);
        }
    }
    Ordering::Equal
}

/// How the point of the entry in front of the bytes stands to another. No more coordinates are read than tell it, and it is asked once whether
/// they are wide.
pub(crate) fn compare_with(bytes: &[u8], wide: bool, arity: u8, point: &Point) -> Ordering
    requires arity { arity ≤ 8 }
    requires place { arity * width wide ≤ length bytes.now }
    ensures { result ≡ point_cmp (point_of wide arity bytes.now).at point.now.at }
{
    if !is_zero_past(point, arity) {
        return Ordering::Less;
    }
    if wide {
        compare_used(bytes, true, arity, point)
    } else {
        compare_used(bytes, false, arity, point)
    }
}

/// Whether the point of the entry at one place comes before that of the entry at another.
fn is_before(page: &[u8; 4096], wide: bool, arity: u8, left: usize, right: usize) -> bool
    requires arity { arity ≤ 8 }
    requires left { left + arity * width wide ≤ PAGE }
    requires right { right + arity * width wide ≤ PAGE }
    ensures { result ≡ comes_before (point_of wide arity (drop left page.now)) (point_of wide arity (drop right page.now)) }
{
    for skipped in 0..arity as usize {
        let dimension = arity as usize - 1 - skipped;
        let a = coordinate_at(page, wide, left, dimension);
        let b = coordinate_at(page, wide, right, dimension);
        if a != b {
            return a < b;
        }
    }
    false
}

/// Whether the point of the entry at an index of a leaf comes after that of the one before it, if there is one.
pub fn is_next_point(page: &[u8; 4096], wide: bool, arity: u8, size: usize, index: usize) -> bool
    requires arity { arity ≤ 8 }
    requires coordinates { arity * width wide ≤ size }
    requires place { HEADER + index * size + size ≤ PAGE }
    ensures { result ≡ (index == 0
        || comes_before (point_of wide arity (drop (HEADER + (index - 1) * size) page.now)) (point_of wide arity (drop (HEADER + index * size) page.now))) }
{
    if index == 0 {
        return true;
    }
    let last = HEADER + (index - 1) * size;
    is_before(page, wide, arity, last, last + size)
}

/// Whether all used coordinates of the entry that begins at a place are positive.
#[inline(always)]
pub fn are_coordinates_positive(page: &[u8; 4096], wide: bool, arity: usize, at: usize) -> bool
    requires arity { arity ≤ 8 }
    requires place { at + arity * width wide ≤ PAGE }
    ensures { result ≡ are_positive (point_of wide arity (drop at page.now)) }
{
    for dimension in 0..arity {
        if coordinate_at(page, wide, at, dimension) == 0 {
            return false;
        }
    }
    true
}

/// Whether all used coordinates of the entry at one place are positive, and its point comes after that of the entry at another, whose are. What
/// equals a positive coordinate or is greater is one too, so the others alone are looked at for it.
#[inline(always)]
fn is_positive_after(page: &[u8; 4096], wide: bool, arity: u8, last: usize, at: usize) -> bool
    requires arity { arity ≤ 8 }
    requires last { last + arity * width wide ≤ PAGE }
    requires place { at + arity * width wide ≤ PAGE }
    requires positive { are_positive (point_of wide arity (drop last page.now)) ≡ true }
    ensures { result ≡ (are_positive (point_of wide arity (drop at page.now))
        && comes_before (point_of wide arity (drop last page.now)) (point_of wide arity (drop at page.now))) }
{
    for skipped in 0..arity as usize {
        let dimension = arity as usize - 1 - skipped;
        let a = coordinate_at(page, wide, last, dimension);
        let b = coordinate_at(page, wide, at, dimension);
        if a != b {
            if b < a {
                return false;
            }
            return are_coordinates_positive(page, wide, dimension, at);
        }
    }
    false
}

/// The last two coordinates of the narrow point of the entry that begins at a place, read at once, as one number in which the last one counts more.
#[inline(always)]
pub fn last_two(page: &[u8; 4096], wide: bool, arity: u8, at: usize) -> u64
    requires narrow { wide ≡ false }
    requires two { 2 ≤ arity }
    requires place { at + arity * width wide ≤ PAGE }
    ensures both { result ≡ slice_index (point_of wide arity (drop at page.now)).at (arity - 1) * 2 ^ 32
        + slice_index (point_of wide arity (drop at page.now)).at (arity - 2) }
    ensures low { slice_index (point_of wide arity (drop at page.now)).at (arity - 2) < 2 ^ 32 }
{
    let both = take_u64(page, at + (arity as usize - 2) * NARROW);
    both % 4294967296 * 4294967296 + both / 4294967296
}

/// The same as `is_positive_after`, of narrow points of two coordinates or more, whose last two are given: the ones before are compared only
/// where these are equal.
#[inline(always)]
pub fn is_pair_after(
    page: &[u8; 4096],
    wide: bool,
    arity: u8,
    last: usize,
    before: u64,
    at: usize,
    here: u64,
) -> bool
    requires two { 2 ≤ arity }
    requires arity { arity ≤ 8 }
    requires last { last + arity * width wide ≤ PAGE }
    requires place { at + arity * width wide ≤ PAGE }
    requires before { before ≡ slice_index (point_of wide arity (drop last page.now)).at (arity - 1) * 2 ^ 32
        + slice_index (point_of wide arity (drop last page.now)).at (arity - 2) }
    requires here { here ≡ slice_index (point_of wide arity (drop at page.now)).at (arity - 1) * 2 ^ 32
        + slice_index (point_of wide arity (drop at page.now)).at (arity - 2) }
    requires low_before { slice_index (point_of wide arity (drop last page.now)).at (arity - 2) < 2 ^ 32 }
    requires low_here { slice_index (point_of wide arity (drop at page.now)).at (arity - 2) < 2 ^ 32 }
    requires positive { are_positive (point_of wide arity (drop last page.now)) ≡ true }
    ensures { result ≡ (are_positive (point_of wide arity (drop at page.now))
        && comes_before (point_of wide arity (drop last page.now)) (point_of wide arity (drop at page.now))) }
{
    if here == before {
        return is_positive_after(page, wide, arity - 2, last, at);
    }
    if here < before {
        return false;
    }
    if here % 4294967296 == 0 {
        return false;
    }
    are_coordinates_positive(page, wide, arity as usize - 2, at)
}

/// Whether all used coordinates of the entry at an index of a leaf are positive, and its point comes after that of the one before it, if there
/// is one.
#[inline(always)]
pub fn is_next_positive(page: &[u8; 4096], wide: bool, arity: u8, size: usize, index: usize) -> bool
    requires arity { arity ≤ 8 }
    requires coordinates { arity * width wide ≤ size }
    requires place { HEADER + index * size + size ≤ PAGE }
    requires positive { 0 < index → are_positive (point_of wide arity (drop (HEADER + (index - 1) * size) page.now)) ≡ true }
    ensures { result ≡ (are_positive (point_of wide arity (drop (HEADER + index * size) page.now))
        && (index == 0 || comes_before (point_of wide arity (drop (HEADER + (index - 1) * size) page.now)) (point_of wide arity (drop (HEADER + index * size) page.now)))) }
{
    if index == 0 {
        return are_coordinates_positive(page, wide, arity as usize, HEADER);
    }
    let last = HEADER + (index - 1) * size;
    is_positive_after(page, wide, arity, last, last + size)
}
