//! Writing an entry.

ghost use Rattle.std.specs.Prelude.{◌≡◌, ◌≤◌, ◌+◌, ◌*◌, ◌++◌, take, flat_map, length};
ghost use Rattle.page_entry.specs.declared.size.TheConstants.{PAGE, PART};
ghost use Rattle.be_numbers.specs.Numbers.{coded};
ghost use Rattle.be_numbers.specs.Formats.{AreMany};
ghost use Rattle.page_entry.specs.Bytes.{width, part_bytes, entry_bytes, entry_size};
ghost use Rattle.page_entry.specs.Stored.{IsCoordinate};

use be_numbers::{put_i128, put_u32, put_u64};
use cube_point::{Entry, Shape};
use fact_model::Part;

/// Copies bytes to a place of the page; answers the place behind them.
pub(crate) fn put_bytes(page: &mut [u8; 4096], at: usize, bytes: &[u8]) -> usize
    requires { at + length bytes.now ≤ PAGE }
    ensures next { result ≡ at + length bytes.now }
    ensures written { take (at + length bytes.now) page.new ≡ take at page.old ++ bytes.now }
{
    let end = at + bytes.len();
    page[at..end].copy_from_slice(bytes);
    end
}

/// Writes a coordinate at a place of a page; answers the place behind it.
#[inline(always)]
#[tactic(auto, unfolding(crate::specs::Bytes::width))]
pub fn put_coordinate(page: &mut [u8; 4096], at: usize, wide: bool, coordinate: u64) -> usize
    requires place { at + width wide ≤ PAGE }
    requires narrow { IsCoordinate wide coordinate }
    ensures next { result ≡ at + width wide }
    ensures written { take (at + width wide) page.new ≡ take at page.old ++ coded (width wide) coordinate }
{
    if wide {
        put_u64(page, at, coordinate)
    } else {
        put_u32(page, at, coordinate as u32)
    }
}

/// Writes so many coordinates from a place of a page on; answers the place behind them. It is asked once whether they are wide.
pub(crate) fn put_coordinates(
    page: &mut [u8; 4096],
    at: usize,
    wide: bool,
    arity: u8,
    coordinates: &[u64; 8],
) -> usize
    requires arity { arity ≤ 8 }
    requires place { at + arity * width wide ≤ PAGE }
    requires narrow { AreMany (IsCoordinate wide) arity (take arity coordinates.now) }
    ensures next { result ≡ at + arity * width wide }
    ensures written { take (at + arity * width wide) page.new ≡ take at page.old ++ flat_map (coded (width wide)) (take arity coordinates.now) }
{
    if wide {
        put_each(page, at, true, arity, coordinates)
    } else {
        put_each(page, at, false, arity, coordinates)
    }
}

#[inline(always)]
fn put_each(
    page: &mut [u8; 4096],
    at: usize,
    wide: bool,
    arity: u8,
    coordinates: &[u64; 8],
) -> usize
    requires arity { arity ≤ 8 }
    requires place { at + arity * width wide ≤ PAGE }
    requires narrow { AreMany (IsCoordinate wide) arity (take arity coordinates.now) }
    ensures next { result ≡ at + arity * width wide }
    ensures written { take (at + arity * width wide) page.new ≡ take at page.old ++ flat_map (coded (width wide)) (take arity coordinates.now) }
{
    let mut next = at;
    for i in 0..arity as usize {
        next = put_coordinate(page, next, wide, coordinates[i]);
    }
    next
}

fn put_part(page: &mut [u8; 4096], at: usize, part: &Part) -> usize
    requires { at + PART ≤ PAGE }
    ensures next { result ≡ at + PART }
    ensures written { take (at + PART) page.new ≡ take at page.old ++ part_bytes part.now }
{
    let next = put_i128(page, at, part.sum);
    let next = put_i128(page, next, part.low);
    put_i128(page, next, part.high)
}

fn put_parts(page: &mut [u8; 4096], at: usize, measures: u8, parts: &[Part; 4]) -> usize
    requires measures { measures ≤ 4 }
    requires place { at + measures * PART ≤ PAGE }
    ensures next { result ≡ at + measures * PART }
    ensures written { take (at + measures * PART) page.new ≡ take at page.old ++ flat_map part_bytes (take measures parts.now) }
{
    let mut next = at;
    for i in 0..measures as usize {
        next = put_part(page, next, &parts[i]);
    }
    next
}

/// Writes an entry of a tree of this shape at a place of a page, by an arity; answers the place behind it.
pub fn put_entry(page: &mut [u8; 4096], at: usize, shape: &Shape, arity: u8, entry: &Entry) -> usize
    requires arity { arity ≤ 8 }
    requires measures { shape.now.measures ≤ 4 }
    requires place { at + entry_size arity shape.now ≤ PAGE }
    requires narrow { AreMany (IsCoordinate shape.now.wide) arity (take arity entry.now.point.at) }
    ensures next { result ≡ at + entry_size arity shape.now }
    ensures written { take (at + entry_size arity shape.now) page.new
        ≡ take at page.old ++ entry_bytes arity shape.now entry.now }
    ensures long { length page.new ≡ PAGE }
{
    let next = put_coordinates(page, at, shape.wide, arity, &entry.point.at);
    let next = put_u64(page, next, entry.cell.count);
    put_parts(page, next, shape.measures, &entry.cell.parts)
}
