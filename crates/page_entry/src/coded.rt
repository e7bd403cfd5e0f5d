//! An entry of a leaf where it lies.

ghost use Rattle.std.specs.Prelude.{◌≡◌, ◌↔◌, ◌≤◌, ◌<◌, ◌+◌, ◌++◌, IsTrue, false, take, get_or, length, slice_index};
ghost use Rattle.be_numbers.specs.Formats.{AreMany, IsBytes};
ghost use Rattle.page_entry.specs.declared.size.TheConstants.{PAGE};
ghost use Rattle.cube_point.specs.declared.point.Entry.{Entry};
ghost use Rattle.cube_point.specs.Boxes.{IsInside};
ghost use Rattle.cube_point.specs.Points.{point_cmp};
ghost use Rattle.fact_model.specs.Cell.{FitCells, join};
ghost use Rattle.page_entry.specs.Cells.{EndsInZeros, IsJoined};
ghost use Rattle.page_entry.specs.Bytes.{entry_bytes, entry_size};
ghost use Rattle.page_entry.specs.Entries.{entries, entry_of, page_count, HasEntries};
ghost use Rattle.page_entry.specs.Stored.{IsCoordinate};

use crate::cell::join_cell;
use crate::order::compare_with;
use crate::put::{put_bytes, put_coordinates};
use crate::read::{cell_at, coordinate_in, entry_at, point_at};
use crate::region::lies_in;
use crate::size::{HEADER, size_of_entry, size_of_point};
use cube_point::{Entry, Point, Region, Shape};
use fact_model::Cell;
use std::cmp::Ordering;
use std::marker::Model;

/// An entry in its bytes, which are lent from a leaf. Its point is read without its cell, and it is put into another leaf as it stands.
#[derive(Drop)]
pub struct Coded<'a> {
    bytes: &'a [u8],
    arity: u8,
    shape: Shape,
}

impl<'a> Model for Coded<'a> {
    ghost Value = { Entry };

    ghost view = { λ s. entry_of s.arity s.shape s.bytes.now };

    ghost invariant = { λ s. record { arity : s.arity ≤ 8; measures : s.shape.measures ≤ 4; are : IsBytes s.bytes.now; long : length s.bytes.now ≡ entry_size s.arity s.shape } };
}

/// The entry at an index of an accepted leaf, where it lies.
pub fn lent_entry<'a>(bytes: &'a [u8; 4096], shape: &Shape, index: usize) -> Coded<'a>
    requires page { HasEntries shape.now bytes.now }
    requires index { index < page_count bytes.now }
    ensures { result ≡ get_or (entries shape.now bytes.now) index result }
{
    let arity = bytes[1];
    let size = size_of_entry(shape, arity);
    let at = HEADER + index * size;
    Coded {
        bytes: &bytes[at..at + size],
        arity,
        shape: *shape,
    }
}

impl<'a> Coded<'a> {
    /// The arity of its point, which has eight coordinates, whatever that is.
    pub fn arity(&self) -> u8
        ensures arity { result ≡ self.now.point.arity }
        ensures eight { length self.now.point.at ≡ 8 }
    {
        self.arity
    }

    /// Its point, without its cell.
    pub fn point(&self) -> Point
        ensures { result ≡ self.now.point }
    {
        point_at(self.bytes, self.shape.wide, self.arity, 0)
    }

    /// How its point stands to another.
    pub fn compare(&self, point: &Point) -> Ordering
        ensures { result ≡ point_cmp self.now.point.at point.now.at }
    {
        compare_with(self.bytes, self.shape.wide, self.arity, point)
    }

    /// A coordinate of its point, which is zero past the arity.
    pub fn coordinate(&self, dimension: usize) -> u64
        ensures { result ≡ slice_index self.now.point.at dimension }
    {
        coordinate_in(self.bytes, self.shape.wide, self.arity, 0, dimension)
    }

    /// Whether its point lies in a region. No more coordinates are read than tell it.
    pub fn is_inside(&self, region: &Region) -> bool
        ensures { IsTrue result ↔ IsInside self.now.point region.now }
    {
        lies_in(self.bytes, self.shape.wide, self.arity, region)
    }

    /// Its cell, decoded, which has no part past its measures but zeros.
    pub fn cell(&self) -> Cell
        ensures value { result ≡ self.now.cell }
        ensures zeros { EndsInZeros result }
    {
        cell_at(
            self.bytes,
            self.shape.measures,
            size_of_point(self.shape.wide, self.arity),
        )
    }

    /// Joins its cell to another, where both have as many measures and add up within their types. False, where they do not join: then the
    /// other is left as it was. No more parts are read or written than there are measures, so what the other has past them stays; where
    /// that is zeros, as in the cells of facts, it is the join of both.
    pub fn join_to(&self, cell: &mut Cell) -> bool
        ensures joins { IsTrue result ↔ (cell.old.measures ≡ self.now.cell.measures) × FitCells cell.old self.now.cell }
        ensures joined { IsTrue result → IsJoined cell.old self.now.cell cell.new }
        ensures whole { EndsInZeros cell.old → IsTrue result → cell.new ≡ join cell.old self.now.cell }
        ensures zeros { EndsInZeros cell.old → EndsInZeros cell.new }
        ensures same { result ≡ false → cell.new ≡ cell.old }
    {
        if cell.measures != self.shape.measures {
            return false;
        }
        join_cell(self.bytes, size_of_point(self.shape.wide, self.arity), cell)
    }

    /// The entry, decoded.
    pub fn entry(&self) -> Entry
        ensures { result ≡ self.now }
    {
        entry_at(self.bytes, &self.shape, self.arity, 0)
    }

    /// Writes it at a place of a page of a tree of this shape; answers the place behind it. Its bytes are copied: all of them where both trees are
    /// wide or both are not, and otherwise those of its cell.
    pub fn put(&self, page: &mut [u8; 4096], at: usize, shape: &Shape) -> usize
        requires place { at + entry_size self.now.point.arity shape.now ≤ PAGE }
        requires measures { self.now.cell.measures ≡ shape.now.measures }
        requires narrow { AreMany (IsCoordinate shape.now.wide) self.now.point.arity (take self.now.point.arity self.now.point.at) }
        ensures next { result ≡ at + entry_size self.now.point.arity shape.now }
        ensures written { take (at + entry_size self.now.point.arity shape.now) page.new
            ≡ take at page.old ++ entry_bytes self.now.point.arity shape.now self.now }
        ensures long { length page.new ≡ PAGE }
    {
        if self.shape.wide == shape.wide {
            return put_bytes(page, at, self.bytes);
        }
        self.put_anew(page, at, shape)
    }

    /// Writes it at a place of a page with its coordinates anew; answers the place behind it. It stands apart, since it is for two trees of two
    /// widths alone.
    #[inline(never)]
    fn put_anew(&self, page: &mut [u8; 4096], at: usize, shape: &Shape) -> usize
        requires place { at + entry_size self.now.point.arity shape.now ≤ PAGE }
        requires measures { self.now.cell.measures ≡ shape.now.measures }
        requires narrow { AreMany (IsCoordinate shape.now.wide) self.now.point.arity (take self.now.point.arity self.now.point.at) }
        ensures next { result ≡ at + entry_size self.now.point.arity shape.now }
        ensures written { take (at + entry_size self.now.point.arity shape.now) page.new
            ≡ take at page.old ++ entry_bytes self.now.point.arity shape.now self.now }
    {
        let point = self.point();
        let next = put_coordinates(page, at, shape.wide, self.arity, &point.at);
        put_bytes(
            page,
            next,
            &self.bytes[size_of_point(self.shape.wide, self.arity)..],
        )
    }
}
