//! Points held small.
ghost use Rattle.std.specs.Prelude.{◌≡◌, ◌<◌, ◌≤◌, ◌^◌, ◌++◌, ◌∷◌, [], All, OnOk, get_or, length, set};
ghost use Rattle.fact_model.specs.Cell.{part_of};
ghost use Rattle.cube_point.specs.declared.point.Entry as entries;
ghost use Rattle.point_groups.specs.Bare.{bare, nowhere, with_cell};

use crate::column::{
    greatest_in, number_at, number_in, numbers_at, part_in, parts_at, put_number, put_numbers,
    put_parts,
};
use cube_point::{Entry, Point};
use fact_model::{Cell, Memory, Part};
use std::alloc::Global;
use std::marker::Model;

/// Points as lists, one for each coordinate and for each measure, which contracts see as the list of the points. A coordinate that is zero
/// at all points takes no room, and nor does a measure that none has.
#[derive(Drop)]
pub(crate) struct ClosedPoints {
    counts: Vec<u64>,
    // There are as many as points.
    measures: Vec<u8>,
    coordinates: [Vec<u64>; 8],
    parts: [Vec<Part>; 4],
}

impl Model for ClosedPoints {
    ghost use Rattle.std.specs.Prelude.{List};
    ghost use Rattle.cube_point.specs.declared.point.Entry.{Entry};

    ghost Value = { List Entry };

    ghost use Rattle.point_groups.specs.Closed.{closed_points};

    ghost view = { closed_points };
}

impl ClosedPoints {
    /// No points.
    pub fn new(alloc: Global) -> ClosedPoints
        ensures { result ≡ [] }
    {
        ClosedPoints {
            counts: Vec::new(alloc),
            measures: Vec::new(alloc),
            coordinates: [
                Vec::new(alloc),
                Vec::new(alloc),
                Vec::new(alloc),
                Vec::new(alloc),
                Vec::new(alloc),
                Vec::new(alloc),
                Vec::new(alloc),
                Vec::new(alloc),
            ],
            parts: [
                Vec::new(alloc),
                Vec::new(alloc),
                Vec::new(alloc),
                Vec::new(alloc),
            ],
        }
    }

    /// How many points there are.
    pub fn len(&self) -> usize
        ensures count { result ≡ length self.now }
        ensures few { result < 2 ^ 63 }
    {
        self.measures.len()
    }

    /// A coordinate of a point, and 0 past its eight.
    #[inline(always)]
    pub fn coordinate(&self, number: usize, dimension: usize) -> u64
        requires { number < length self.now }
        ensures { result ≡ get_or (get_or self.now number nowhere).point.at dimension 0 }
    {
        number_in(&self.coordinates, number, dimension)
    }

    /// The greatest coordinate in a dimension, and 0 past the eight and where there is no point.
    pub fn greatest(&self, dimension: usize) -> u64
        ensures { All (λ (e : entries.Entry). get_or e.point.at dimension 0 ≤ result) self.now }
    {
        greatest_in(&self.coordinates, dimension)
    }

    /// The place of a point.
    pub fn point(&self, number: usize) -> Point
        requires { number < length self.now }
        ensures { result ≡ (get_or self.now number nowhere).point }
    {
        Point {
            arity: 0,
            at: numbers_at(&self.coordinates, number),
        }
    }

    /// How many facts a point has.
    pub fn count(&self, number: usize) -> u64
        requires { number < length self.now }
        ensures { result ≡ (get_or self.now number nowhere).cell.count }
    {
        number_at(&self.counts, number)
    }

    /// The part of a measure at a point, and that of no facts past the four.
    pub fn part(&self, number: usize, measure: usize) -> Part
        requires { number < length self.now }
        ensures { result ≡ get_or (get_or self.now number nowhere).cell.parts measure (part_of []) }
    {
        part_in(&self.parts, number, measure)
    }

    /// The cell of a point.
    pub fn cell(&self, number: usize) -> Cell
        requires { number < length self.now }
        ensures { result ≡ (get_or self.now number nowhere).cell }
    {
        Cell {
            count: number_at(&self.counts, number),
            measures: self.measures[number],
            parts: parts_at(&self.parts, number),
        }
    }

    /// Puts a point behind the others.
    pub fn push(&mut self, entry: &Entry) -> Result<(), Memory>
        ensures { OnOk result (self.new ≡ self.old ++ bare entry.now ∷ []) }
    {
        let number = self.measures.len();
        put_numbers(&mut self.coordinates, number, &entry.point.at)?;
        put_parts(&mut self.parts, number, &entry.cell.parts)?;
        put_number(&mut self.counts, number, entry.cell.count)?;
        self.measures.push(entry.cell.measures)?;
        Ok(())
    }

    /// Gives a point another cell.
    pub fn set_cell(&mut self, number: usize, cell: &Cell) -> Result<(), Memory>
        requires { number < length self.old }
        ensures { OnOk result (self.new ≡ set self.old number (with_cell (get_or self.old number nowhere) cell.now)) }
    {
        put_parts(&mut self.parts, number, &cell.parts)?;
        put_number(&mut self.counts, number, cell.count)?;
        self.measures[number] = cell.measures;
        Ok(())
    }
}
