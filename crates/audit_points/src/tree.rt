//! The leaves of the views of a tree.

ghost use Rattle.std.specs.Prelude.{◌≡◌, ◌≤◌, ◌<◌, ◌+◌, ◌++◌, ◌^◌, [], ◌∷◌, IfOk, OnErr, OnOk, get_or, length, set};
ghost use Rattle.page_entry.specs.Entries.{HasEntries, page_count};
ghost use Rattle.page_fmt.specs.Trees.{room_of};
ghost use Rattle.audit_points.specs.Kept.{AreFresh, AreFull, Kept, first_or, points_of};

use crate::view::ViewPoints;
use cube_point::Shape;
use fact_model::Memory;
use page_entry::PAGE;
use page_fmt::ARITIES;
use std::alloc::Global;
use std::marker::Model;

/// The points of a tree, which contracts see as the views of the arities 0 to 8.
#[derive(Drop)]
pub struct TreePoints {
    views: Vec<ViewPoints>,
}

impl Model for TreePoints {
    ghost use Rattle.std.specs.Prelude.{◌≡◌, List, length};
    ghost use Rattle.audit_points.specs.Kept.{Kept};

    ghost Value = { List Kept };

    ghost view = { λ s. s.views.items };

    ghost invariant = { λ s. length s.views.items ≡ 9 };
}

impl TreePoints {
    /// No points of a tree of this shape.
    pub fn new(alloc: Global, shape: Shape) -> Result<TreePoints, Memory>
        requires { shape.measures ≤ 4 }
        ensures { IfOk result (AreFresh shape) }
    {
        let mut views = Vec::with_capacity(alloc, ARITIES)?;
        for arity in 0..ARITIES as u8 {
            views.push(ViewPoints::new(alloc, shape, arity))?;
        }
        Ok(TreePoints { views })
    }

    /// The points of an arity.
    pub fn view(&self, arity: usize) -> &ViewPoints
        requires { arity < 9 }
        ensures { result.now ≡ get_or self.now arity result.now }
    {
        &self.views[arity]
    }

    /// Keeps a leaf of `count` points of an arity, after leaves that are full; `number` is that of the page it was read from. The only
    /// error is out of memory; the value is then unchanged.
    pub fn push(
        &mut self,
        arity: usize,
        page: &[u8; PAGE],
        count: usize,
        number: u64,
    ) -> Result<(), Memory>
        requires arity { arity < 9 }
        requires page { (d : Kept) → HasEntries (get_or self.old arity d).shape page.now }
        requires count { count ≡ page_count page.now }
        requires few { (d : Kept) → count ≤ room_of (get_or self.old arity d).shape (get_or self.old arity d).arity }
        requires full { (d : Kept) → AreFull (get_or self.old arity d) }
        requires long { (d : Kept) → length (points_of (get_or self.old arity d)) + count < 2 ^ 60 }
        ensures pushed { OnOk result ((d : Kept) → self.new ≡ set self.old arity (record (get_or self.old arity d) {
          leaves = (get_or self.old arity d).leaves ++ page.now ∷ [];
          first = first_or (get_or self.old arity d).first number;
        })) }
        ensures unchanged { OnErr result (self.new ≡ self.old) }
        ensures nine { length self.old ≡ 9 }
    {
        self.views[arity].push(page, count, number)
    }
}
