//! The leaves of a view.

ghost use Rattle.std.specs.Prelude.{◌≡◌, ◌≤◌, ◌<◌, ◌+◌, ◌++◌, ◌^◌, [], ◌∷◌, Some, None, OnErr, OnOk, get_or, length};
ghost use Rattle.page_entry.specs.Entries.{HasEntries, page_count};
ghost use Rattle.page_fmt.specs.Trees.{room_of};
ghost use Rattle.audit_points.specs.Kept.{AreFull, Kept, first_or, no_points, points_of};

use cube_point::Shape;
use fact_model::Memory;
use page_entry::{Coded, HEADER, PAGE, lent_entry, size_of_entry};
use std::alloc::Global;
use std::marker::Model;

/// The points of one arity, in their leaves, all full but the last.
#[derive(Drop)]
pub struct ViewPoints {
    alloc: Global,
    shape: Shape,
    arity: u8,
    room: usize,
    leaves: Vec<Box<[u8; PAGE]>>,
    first: Option<u64>,
    len: usize,
}

impl Model for ViewPoints {
    ghost use Rattle.std.specs.Prelude.{◌≡◌, ◌≤◌, ◌<◌, length, map};
    ghost use Rattle.page_fmt.specs.Trees.{room_of};
    ghost use Rattle.audit_points.specs.Kept.{AreLeaves, Kept, bytes_of, entries_in};

    ghost Value = { Kept };

    ghost view = { λ s. record { shape = s.shape; arity = s.arity; leaves = map bytes_of s.leaves.items; first = s.first } };

    ghost invariant = { λ s. record {
      measures : s.shape.measures ≤ 4;
      room : s.room ≡ room_of s.shape s.arity;
      some : 0 < s.room;
      leaves : AreLeaves s.shape s.room (map bytes_of s.leaves.items);
      len : s.len ≡ length (entries_in s.shape (map bytes_of s.leaves.items));
    } };
}

impl ViewPoints {
    /// No points of this arity.
    pub fn new(alloc: Global, shape: Shape, arity: u8) -> ViewPoints
        requires arity { arity ≤ 8 }
        requires measures { shape.measures ≤ 4 }
        ensures { result ≡ no_points shape arity }
    {
        ViewPoints {
            alloc,
            shape,
            arity,
            room: (PAGE - HEADER) / size_of_entry(&shape, arity),
            leaves: Vec::new(alloc),
            first: None,
            len: 0,
        }
    }

    /// How many points there are.
    pub fn len(&self) -> usize
        ensures { result ≡ length (points_of self.now) }
    {
        self.len
    }

    /// Their arity.
    pub fn arity(&self) -> u8
        ensures { result ≡ self.now.arity }
    {
        self.arity
    }

    /// How many measures their cells have.
    pub fn measures(&self) -> u8
        ensures { result ≡ self.now.shape.measures }
    {
        self.shape.measures
    }

    /// The page number of the first leaf; `None` if there is no leaf.
    pub fn first(&self) -> Option<u64>
        ensures { result ≡ self.now.first }
    {
        self.first
    }

    /// The point with this number, counted from 0, read in place in its leaf.
    pub fn point(&self, index: usize) -> Coded<'_>
        requires { index < length (points_of self.now) }
        ensures point { result ≡ get_or (points_of self.now) index result }
        ensures measures { result.cell.measures ≡ self.now.shape.measures }
        ensures eight { length result.point.at ≡ 8 }
    {
        lent_entry(
            &self.leaves[index / self.room],
            &self.shape,
            index % self.room,
        )
    }

    /// Keeps a leaf of `count` points, after leaves that are full; `number` is that of the page it was read from. The only error is out of
    /// memory; the value is then unchanged.
    pub fn push(&mut self, page: &[u8; PAGE], count: usize, number: u64) -> Result<(), Memory>
        requires page { HasEntries self.old.shape page.now }
        requires count { count ≡ page_count page.now }
        requires few { count ≤ room_of self.old.shape self.old.arity }
        requires full { AreFull self.old }
        requires long { length (points_of self.old) + count < 2 ^ 60 }
        ensures pushed { OnOk result (self.new ≡ record self.old { leaves = self.old.leaves ++ page.now ∷ []; first = first_or self.old.first number }) }
        ensures unchanged { OnErr result (self.new ≡ self.old) }
    {
        let leaf = Box::new(self.alloc, *page)?;
        self.leaves.push(leaf)?;
        self.len += count;
        self.first = first_or(self.first, number);
        Ok(())
    }
}

/// The first page if there was one, otherwise this one.
fn first_or(first: Option<u64>, number: u64) -> Option<u64>
    ensures { result ≡ first_or first number }
{
    match first {
        Some(page) => Some(page),
        None => Some(number),
    }
}
