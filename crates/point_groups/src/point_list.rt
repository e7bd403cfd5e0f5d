//! Points of a view, held small where they are many.
ghost use Rattle.std.specs.Prelude.{◌≡◌, ◌<◌, ◌≤◌, ◌++◌, ◌∷◌, [], All, IfErr, OnErr, OnOk, get_or, length, map, set};
ghost use Rattle.cube_point.specs.declared.point.Entry as entries;
ghost use Rattle.fact_model.specs.Cell.{join, part_of};
ghost use Rattle.page_entry.specs.Cells.{EndsInZeros};
ghost use Rattle.spec_points.specs.Answer.{column_of};
ghost use Rattle.spec_points.specs.Entries.{both};
ghost use Rattle.point_groups.specs.Bare.{bare, nowhere};
ghost use Rattle.point_groups.specs.Joins.{Joins};
ghost use Rattle.point_groups.specs.Kept.{place_of};
ghost use Rattle.point_groups.specs.declared.stop.RowsStop.TheVariants as stops;

use crate::column::NO_PART;
use crate::columns::ClosedPoints;
use crate::stop::RowsStop;
use cube_point::{Entry, Point};
use fact_model::{Cell, Column, Memory, Part};
use page_entry::Coded;
use std::alloc::Global;
use std::marker::Model;

/// How many points are recent at most.
const MOST_RECENT: usize = 4096;

/// Points without their arities, which contracts see as the list of them. The last are recent: they stand as they came, so that cells are
/// joined to them at once. Where there are many, those before them are closed, and take less room.
#[derive(Drop)]
pub struct FlatPoints {
    closed: ClosedPoints,
    recent: Vec<Entry>,
}

impl Model for FlatPoints {
    ghost use Rattle.std.specs.Prelude.{List, ◌++◌, map};
    ghost use Rattle.cube_point.specs.declared.point.Entry.{Entry};
    ghost use Rattle.point_groups.specs.Bare.{bare};

    ghost Value = { List Entry };

    ghost view = { λ f. f.closed ++ map bare f.recent.items };
}

impl FlatPoints {
    /// No points.
    pub fn new(alloc: Global) -> FlatPoints
        ensures { result ≡ [] }
    {
        FlatPoints {
            closed: ClosedPoints::new(alloc),
            recent: Vec::new(alloc),
        }
    }

    /// How many points there are.
    pub fn len(&self) -> usize
        ensures { result ≡ length self.now }
    {
        self.closed.len() + self.recent.len()
    }

    /// A coordinate of a point, and 0 past its eight or where no point has the number.
    #[inline(always)]
    pub fn coordinate(&self, number: usize, dimension: usize) -> u64
        ensures { result ≡ get_or (get_or self.now number nowhere).point.at dimension 0 }
    {
        let closed = self.closed.len();
        if number < closed {
            return self.closed.coordinate(number, dimension);
        }
        coordinate_at(&self.recent, number - closed, dimension)
    }

    /// The greatest coordinate in a dimension, and 0 past the eight and where there is no point.
    pub fn greatest(&self, dimension: usize) -> u64
        ensures { All (λ (e : entries.Entry). get_or e.point.at dimension 0 ≤ result) self.now }
    {
        self.closed
            .greatest(dimension)
            .max(greatest_at(&self.recent, dimension))
    }

    /// The place of a point.
    #[inline(always)]
    pub fn point(&self, number: usize) -> Point
        requires { number < length self.now }
        ensures { result ≡ (get_or self.now number nowhere).point }
    {
        let closed = self.closed.len();
        if number < closed {
            return self.closed.point(number);
        }
        Point {
            arity: 0,
            at: self.recent[number - closed].point.at,
        }
    }

    /// The cell of a point.
    pub fn cell(&self, number: usize) -> Cell
        requires { number < length self.now }
        ensures { result ≡ (get_or self.now number nowhere).cell }
    {
        let closed = self.closed.len();
        if number < closed {
            return self.closed.cell(number);
        }
        self.recent[number - closed].cell
    }

    /// A column of a point, which is 0 for a measure that it does not have and where no point has the number.
    #[inline(always)]
    pub fn column(&self, number: usize, column: Column) -> i128
        ensures { result ≡ column_of (get_or self.now number nowhere).cell column }
    {
        match column {
            Column::Count => self.count(number) as i128,
            Column::Sum(measure) => self.part(number, measure).sum,
            Column::Min(measure) => self.part(number, measure).low,
            Column::Max(measure) => self.part(number, measure).high,
        }
    }

    /// How many facts a point has.
    #[inline(always)]
    fn count(&self, number: usize) -> u64
        ensures { result ≡ (get_or self.now number nowhere).cell.count }
    {
        let closed = self.closed.len();
        if number < closed {
            return self.closed.count(number);
        }
        count_at(&self.recent, number - closed)
    }

    /// The part of a measure at a point.
    #[inline(always)]
    fn part(&self, number: usize, measure: u32) -> Part
        ensures { result ≡ get_or (get_or self.now number nowhere).cell.parts measure (part_of []) }
    {
        let closed = self.closed.len();
        if number < closed {
            return self.closed.part(number, measure as usize);
        }
        part_of(&self.recent, number - closed, measure)
    }

    /// Puts a point behind the others.
    pub fn push(&mut self, entry: Entry) -> Result<(), Memory>
        ensures { OnOk result (self.new ≡ self.old ++ bare entry ∷ []) }
    {
        self.make_room()?;
        self.recent.push(entry)?;
        Ok(())
    }

    /// Closes the recent points, where they are as many as there may be.
    fn make_room(&mut self) -> Result<(), Memory>
        ensures { OnOk result (self.new ≡ self.old) }
    {
        if self.recent.len() == MOST_RECENT {
            return self.close();
        }
        Ok(())
    }

    /// Closes the recent points.
    #[inline(never)]
    fn close(&mut self) -> Result<(), Memory>
        ensures { OnOk result (self.new ≡ self.old) }
    {
        close_each(&mut self.closed, &self.recent)?;
        self.recent.clear();
        Ok(())
    }

    /// Joins a lent cell to that of a point, where they join.
    pub(crate) fn join(&mut self, number: usize, entry: &Coded<'_>) -> Result<(), RowsStop>
        requires { number < length self.old }
        ensures joined { EndsInZeros (get_or self.old number nowhere).cell
            → OnOk result (self.new ≡ set self.old number (both (get_or self.old number nowhere) entry.now)) }
        ensures joins { OnOk result (Joins (get_or self.old number nowhere).cell entry.now.cell) }
        ensures ends { EndsInZeros (get_or self.old number nowhere).cell
            → OnOk result (EndsInZeros (join (get_or self.old number nowhere).cell entry.now.cell)) }
        ensures places { OnOk result (map place_of self.new ≡ map place_of self.old) }
        ensures apart { IfErr result (λ stop. stop ≡ stops.Damaged → Joins (get_or self.old number nowhere).cell entry.now.cell → ⊥) }
    {
        let closed = self.closed.len();
        if number < closed {
            return join_closed(&mut self.closed, number, entry);
        }
        join_recent(&mut self.recent, number - closed, entry)
    }
}

/// Joins a lent cell to that of a closed point, where they join.
fn join_closed(points: &mut ClosedPoints, number: usize, entry: &Coded<'_>) -> Result<(), RowsStop>
    requires { number < length points.old }
    ensures joined { EndsInZeros (get_or points.old number nowhere).cell
        → OnOk result (points.new ≡ set points.old number (both (get_or points.old number nowhere) entry.now)) }
    ensures joins { OnOk result (Joins (get_or points.old number nowhere).cell entry.now.cell) }
    ensures ends { EndsInZeros (get_or points.old number nowhere).cell
        → OnOk result (EndsInZeros (join (get_or points.old number nowhere).cell entry.now.cell)) }
    ensures places { OnOk result (map place_of points.new ≡ map place_of points.old) }
    ensures apart { IfErr result (λ stop. stop ≡ stops.Damaged → Joins (get_or points.old number nowhere).cell entry.now.cell → ⊥) }
{
    let mut cell = points.cell(number);
    join_next(&mut cell, entry)?;
    points.set_cell(number, &cell)?;
    Ok(())
}

/// Joins a lent cell to that of a point which stands as it came, where they join.
fn join_recent(points: &mut Vec<Entry>, number: usize, entry: &Coded<'_>) -> Result<(), RowsStop>
    requires { number < length points.old.items }
    ensures joined { EndsInZeros (get_or points.old.items number nowhere).cell
        → OnOk result (points.new.items ≡ set points.old.items number (both (get_or points.old.items number nowhere) entry.now)) }
    ensures joins { OnOk result (Joins (get_or points.old.items number nowhere).cell entry.now.cell) }
    ensures ends { EndsInZeros (get_or points.old.items number nowhere).cell
        → OnOk result (EndsInZeros (join (get_or points.old.items number nowhere).cell entry.now.cell)) }
    ensures places { OnOk result (map place_of points.new.items ≡ map place_of points.old.items) }
    ensures apart { IfErr result (λ stop. stop ≡ stops.Damaged → Joins (get_or points.old.items number nowhere).cell entry.now.cell → ⊥) }
{
    join_next(&mut points[number].cell, entry)
}

/// Joins a lent cell to another, where they join.
fn join_next(last: &mut Cell, next: &Coded<'_>) -> Result<(), RowsStop>
    ensures joined { EndsInZeros last.old → OnOk result (last.new ≡ join last.old next.now.cell) }
    ensures joins { OnOk result (Joins last.old next.now.cell) }
    ensures ends { EndsInZeros last.old → EndsInZeros last.new }
    ensures stop { IfErr result (λ stop. stop ≡ stops.Damaged) }
    ensures apart { OnErr result (Joins last.old next.now.cell → ⊥) }
{
    if !next.join_to(last) {
        return Err(RowsStop::Damaged);
    }
    Ok(())
}

/// Closes points behind those that are closed.
fn close_each(closed: &mut ClosedPoints, points: &[Entry]) -> Result<(), Memory>
    ensures { OnOk result (closed.new ≡ closed.old ++ map bare points.now) }
{
    for entry in points {
        closed.push(entry)?;
    }
    Ok(())
}

/// A coordinate of the point at a place, and 0 where there is none.
fn coordinate_at(points: &[Entry], place: usize, dimension: usize) -> u64
    ensures { result ≡ get_or (get_or points.now place nowhere).point.at dimension 0 }
{
    match points.get(place) {
        Some(entry) => coordinate_of(&entry.point, dimension),
        None => 0,
    }
}

/// The greatest coordinate of points in a dimension, and 0 where there is no point.
fn greatest_at(points: &[Entry], dimension: usize) -> u64
    ensures { All (λ (e : entries.Entry). get_or e.point.at dimension 0 ≤ result) points.now }
{
    let mut greatest = 0;
    for entry in points {
        greatest = coordinate_of(&entry.point, dimension).max(greatest);
    }
    greatest
}

/// A coordinate of a point, and 0 past its eight.
fn coordinate_of(point: &Point, dimension: usize) -> u64
    ensures { result ≡ get_or point.now.at dimension 0 }
{
    match point.at.get(dimension) {
        Some(coordinate) => *coordinate,
        None => 0,
    }
}

/// How many facts the point at a place has, and 0 where there is none.
fn count_at(points: &[Entry], place: usize) -> u64
    ensures { result ≡ (get_or points.now place nowhere).cell.count }
{
    match points.get(place) {
        Some(entry) => entry.cell.count,
        None => 0,
    }
}

/// The part of a measure at a place, which is that of no facts for a measure that a cell does not have and where there is no point.
fn part_of(points: &[Entry], place: usize, measure: u32) -> Part
    ensures { result ≡ get_or (get_or points.now place nowhere).cell.parts measure (part_of []) }
{
    match points.get(place) {
        Some(entry) => part_in_cell(&entry.cell, measure),
        None => NO_PART,
    }
}

/// The part of a measure of a cell, which is that of no facts for a measure that it does not have.
fn part_in_cell(cell: &Cell, measure: u32) -> Part
    ensures { result ≡ get_or cell.now.parts measure (part_of []) }
{
    match cell.parts.get(measure as usize) {
        Some(part) => *part,
        None => NO_PART,
    }
}
