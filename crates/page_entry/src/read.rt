//! Reading an entry.

ghost use Rattle.std.specs.Prelude.{◌≡◌, ◌≤◌, ◌+◌, ◌*◌, ◌-◌, ◌++◌, drop, replicate, slice_index, length};
ghost use Rattle.page_entry.specs.declared.size.TheConstants.{COUNT, PART};
ghost use Rattle.be_numbers.specs.Formats.{many};
ghost use Rattle.page_entry.specs.Bytes.{width, entry_size};
ghost use Rattle.page_entry.specs.Cells.{cell_of};
ghost use Rattle.page_entry.specs.Entries.{part_of, no_part, point_of, entry_of};

use crate::order::coordinate_at;
use crate::size::{COUNT, PART, VALUE, size_of_point};
use be_numbers::{take_i128, take_u64};
use cube_point::{Entry, Point, Shape};
use fact_model::{Cell, Part};

/// The coordinate of a dimension; past the arity it is zero, and not read.
#[inline(always)]
pub(crate) fn coordinate_in(bytes: &[u8], wide: bool, arity: u8, at: usize, dimension: usize) -> u64
    requires arity { arity ≤ 8 }
    requires place { at + arity * width wide ≤ length bytes.now }
    ensures { result ≡ slice_index (point_of wide arity (drop at bytes.now)).at dimension }
{
    if dimension < arity as usize {
        return coordinate_at(bytes, wide, at, dimension);
    }
    0
}

/// The coordinates of the point that begins at a place, one by one, so that they need not lie in memory. It is asked once whether they are wide.
#[inline(always)]
fn coordinates_at(bytes: &[u8], wide: bool, arity: u8, at: usize) -> [u64; 8]
    requires arity { arity ≤ 8 }
    requires place { at + arity * width wide ≤ length bytes.now }
    ensures { result ≡ (point_of wide arity (drop at bytes.now)).at }
{
    if wide {
        each_coordinate(bytes, true, arity, at)
    } else {
        each_coordinate(bytes, false, arity, at)
    }
}

#[inline(always)]
fn each_coordinate(bytes: &[u8], wide: bool, arity: u8, at: usize) -> [u64; 8]
    requires arity { arity ≤ 8 }
    requires place { at + arity * width wide ≤ length bytes.now }
    ensures { result ≡ (point_of wide arity (drop at bytes.now)).at }
{
    [
        coordinate_in(bytes, wide, arity, at, 0),
        coordinate_in(bytes, wide, arity, at, 1),
        coordinate_in(bytes, wide, arity, at, 2),
        coordinate_in(bytes, wide, arity, at, 3),
        coordinate_in(bytes, wide, arity, at, 4),
        coordinate_in(bytes, wide, arity, at, 5),
        coordinate_in(bytes, wide, arity, at, 6),
        coordinate_in(bytes, wide, arity, at, 7),
    ]
}

/// The part that begins at a place.
pub fn part_at(bytes: &[u8], at: usize) -> Part
    requires { at + PART ≤ length bytes.now }
    ensures { result ≡ part_of (drop at bytes.now) }
{
    Part {
        sum: take_i128(bytes, at),
        low: take_i128(bytes, at + VALUE),
        high: take_i128(bytes, at + 2 * VALUE),
    }
}

fn parts_at(bytes: &[u8], measures: u8, at: usize) -> [Part; 4]
    requires measures { measures ≤ 4 }
    requires place { at + measures * PART ≤ length bytes.now }
    ensures { result ≡ many part_of PART measures (drop at bytes.now) ++ replicate (4 - measures) no_part }
{
    let mut all = [Part {
        sum: 0,
        low: 0,
        high: 0,
    }; 4];
    for i in 0..measures as usize {
        all[i] = part_at(bytes, at + i * PART);
    }
    all
}

/// The point of the entry that begins at a place.
#[inline(always)]
pub(crate) fn point_at(bytes: &[u8], wide: bool, arity: u8, at: usize) -> Point
    requires arity { arity ≤ 8 }
    requires place { at + arity * width wide ≤ length bytes.now }
    ensures { result ≡ point_of wide arity (drop at bytes.now) }
{
    Point {
        arity,
        at: coordinates_at(bytes, wide, arity, at),
    }
}

/// The cell that begins at a place.
pub(crate) fn cell_at(bytes: &[u8], measures: u8, at: usize) -> Cell
    requires measures { measures ≤ 4 }
    requires place { at + (COUNT + measures * PART) ≤ length bytes.now }
    ensures { result ≡ cell_of measures (drop at bytes.now) }
{
    Cell {
        count: take_u64(bytes, at),
        measures,
        parts: parts_at(bytes, measures, at + COUNT),
    }
}

/// The entry that begins at a place.
pub fn entry_at(bytes: &[u8], shape: &Shape, arity: u8, at: usize) -> Entry
    requires arity { arity ≤ 8 }
    requires measures { shape.now.measures ≤ 4 }
    requires place { at + entry_size arity shape.now ≤ length bytes.now }
    ensures { result ≡ entry_of arity shape.now (drop at bytes.now) }
{
    Entry {
        point: point_at(bytes, shape.wide, arity, at),
        cell: cell_at(bytes, shape.measures, at + size_of_point(shape.wide, arity)),
    }
}
