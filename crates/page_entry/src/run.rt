//! Entries of a leaf that stand one behind another, where they lie.

ghost use Rattle.std.specs.Prelude.{◌≡◌, ◌≤◌, ◌<◌, ◌+◌, ◌*◌, ◌++◌, ℕ, List, true, false, drop, take, flat_map, length, get_or};
ghost use Rattle.std.specs.List.{All};
ghost use Rattle.be_numbers.specs.Formats.{IsBytes, many};
ghost use Rattle.cube_point.specs.declared.point.Entry.{Entry};
ghost use Rattle.cube_point.specs.declared.point.Shape as shapes;
ghost use Rattle.cube_point.specs.Points.{point_cmp};
ghost use Rattle.page_entry.specs.declared.size.TheConstants.{PAGE};
ghost use Rattle.page_entry.specs.Entries.{HasEntries, ascend, entries, entry_before, entry_of, page_arity, page_count};
ghost use Rattle.page_entry.specs.Bytes.{entry_bytes, entry_size};
ghost use Rattle.page_entry.specs.Runs.{Precedes, Follows};

use crate::order::compare_with;
use crate::put::put_bytes;
use crate::size::{HEADER, size_of_entry};
use cube_point::{Point, Shape};
use std::marker::Model;

/// Entries of one arity in their bytes, which are lent from a leaf, one behind another. They are put into another leaf of as wide a tree at
/// once.
#[derive(Drop)]
pub struct CodedRun<'a> {
    bytes: &'a [u8],
    arity: u8,
    count: usize,
    shape: Shape,
}

impl<'a> Model for CodedRun<'a> {
    ghost Value = { record { entries : List Entry; arity : ℕ; shape : shapes.Shape } };

    ghost view = { λ s. record { entries = many (entry_of s.arity s.shape) (entry_size s.arity s.shape) s.count s.bytes.now; arity = s.arity; shape = s.shape } };

    ghost invariant = { λ s. record { arity : s.arity ≤ 8; measures : s.shape.measures ≤ 4; are : IsBytes s.bytes.now; long : length s.bytes.now ≡ s.count * entry_size s.arity s.shape; short : length s.bytes.now ≤ PAGE } };
}

/// So many entries of an accepted leaf from an index on, where they lie.
pub fn lent_run<'a>(
    bytes: &'a [u8; 4096],
    shape: &Shape,
    index: usize,
    count: usize,
) -> CodedRun<'a>
    requires page { HasEntries shape.now bytes.now }
    requires inside { index + count ≤ page_count bytes.now }
    ensures entries { result.entries ≡ take count (drop index (entries shape.now bytes.now)) }
    ensures shape { result.shape ≡ shape.now }
{
    let arity = bytes[1];
    let size = size_of_entry(shape, arity);
    let at = HEADER + index * size;
    let end = at + count * size;
    CodedRun {
        bytes: &bytes[at..end],
        arity,
        count,
        shape: *shape,
    }
}

impl<'a> CodedRun<'a> {
    /// How many entries there are.
    pub fn len(&self) -> usize
        ensures { result ≡ length self.now.entries }
    {
        self.count
    }

    /// The arity of their points.
    pub fn arity(&self) -> u8
        ensures arity { result ≡ self.now.arity }
        ensures all { All (λ e. e.point.arity ≡ self.now.arity) self.now.entries }
    {
        self.arity
    }

    /// Whether the point of the entry at an index comes before another.
    fn is_before(&self, index: usize, point: &Point) -> bool
        requires { index < length self.now.entries }
        ensures before { result ≡ true → (d : Entry) → Precedes point.now (get_or self.now.entries index d) }
        ensures behind { result ≡ false → (d : Entry) → Follows point.now (get_or self.now.entries index d) }
    {
        let at = index * size_of_entry(&self.shape, self.arity);
        let entry = &self.bytes[at..];
        compare_with(entry, self.shape.wide, self.arity, point).is_lt()
    }

    /// How many of them, which are in order, come before a point: the first and the last are looked at, and else they are halved.
    pub fn count_before(&self, point: &Point) -> usize
        requires order { ascend entry_before self.now.entries ≡ true }
        ensures within { result ≤ length self.now.entries }
        ensures before { All (Precedes point.now) (take result self.now.entries) }
        ensures behind { All (Follows point.now) (drop result self.now.entries) }
    {
        let count = self.len();
        if count == 0 {
            return 0;
        }
        if !self.is_before(0, point) {
            return 0;
        }
        if self.is_before(count - 1, point) {
            return count;
        }
        self.count_by_halves(point)
    }

    /// The same, by halves.
    fn count_by_halves(&self, point: &Point) -> usize
        requires order { ascend entry_before self.now.entries ≡ true }
        ensures within { result ≤ length self.now.entries }
        ensures before { All (Precedes point.now) (take result self.now.entries) }
        ensures behind { All (Follows point.now) (drop result self.now.entries) }
    {
        let mut low = 0;
        let mut high = self.len();
        while low < high {
            let middle = low + (high - low) / 2;
            if self.is_before(middle, point) {
                low = middle + 1;
            } else {
                high = middle;
            }
        }
        low
    }

    /// Writes them at a place of a page of a tree of their shape, one behind another; answers the place behind them. Their bytes are copied.
    pub fn put(&self, page: &mut [u8; 4096], at: usize) -> usize
        requires place { at + length self.now.entries * entry_size self.now.arity self.now.shape ≤ PAGE }
        ensures next { result ≡ at + length self.now.entries * entry_size self.now.arity self.now.shape }
        ensures written { take (at + length self.now.entries * entry_size self.now.arity self.now.shape) page.new
            ≡ take at page.old ++ flat_map (entry_bytes self.now.arity self.now.shape) self.now.entries }
        ensures long { length page.new ≡ PAGE }
    {
        put_bytes(page, at, self.bytes)
    }
}
