//! The points of a view joined by their grouped coordinates, as a search gives them.
ghost use Rattle.std.specs.Prelude.{◌≡◌, ◌≤◌, ℕ, [], List, IfErr, IfNone, IfSome, OnOk, length, map};
ghost use Rattle.cube_point.specs.declared.point.Entry as points;
ghost use Rattle.spec_points.specs.Entries.{pair_of};
ghost use Rattle.spec_points.specs.Points.{View};
ghost use Rattle.point_groups.specs.Held.{AreKept, AreOf, ArePlaced, WereGiven};
ghost use Rattle.point_groups.specs.Kept.{AllGather, StaysApart, TookIn, at_point, gathered, grouped_dims, kept_entry};
ghost use Rattle.point_groups.specs.declared.groups.Groups as gatherers;
ghost use Rattle.point_groups.specs.declared.stop.RowsStop.TheVariants as stops;

use crate::group_hints::Hints;
use crate::grouped_place::{grouped_dims, kept_place};
use crate::place_index::{gather_any, index_of};
use crate::place_order::{gather_next, is_at_last, join_at};
use crate::point_list::FlatPoints;
use crate::stop::RowsStop;
use cube_point::Point;
use fact_model::Memory;
use indexmap::IndexSet;
use page_entry::Coded;
use page_fmt::Taker;
use std::alloc::Global;

/// Points joined by their grouped coordinates as they come: one for each place of these.
#[derive(Drop)]
pub struct Groups {
    alloc: Global,
    // Which coordinates are grouped.
    dims: [bool; 8],
    items: FlatPoints,
    // While the places ascend there is no index of them.
    is_ascending: bool,
    index: IndexSet<[u64; 8]>,
    hints: Hints,
    // Whether all points joined so far.
    is_sound: bool,
}

impl Groups {
    /// Groups that no point was given to yet, of the points of a view.
    pub fn new(alloc: Global, view: &[u32], group: &[u32]) -> Groups
        requires arity { length view.now ≤ 8 }
        ensures kind { AreOf group.now view.now result }
        ensures given { WereGiven result [] result }
    {
        Groups {
            alloc,
            dims: grouped_dims(view, group),
            items: FlatPoints::new(alloc),
            is_ascending: true,
            index: IndexSet::new(alloc),
            hints: Hints::none(alloc),
            is_sound: true,
        }
    }

    /// The points joined: one for each place of grouped coordinates, in the order in which these came first. There are none exactly where the
    /// points of some place did not join.
    pub fn points(self) -> Option<FlatPoints>
        ensures gathered { (start : gatherers.Groups) (group : List ℕ) (view : View) (es : List points.Entry) → AreOf group view start → WereGiven start es self
            → IfSome result (λ joined. map pair_of joined ≡ gathered (grouped_dims group view) es) }
        ensures join { (start : gatherers.Groups) (group : List ℕ) (view : View) (es : List points.Entry) → AreOf group view start → WereGiven start es self
            → IfSome result (λ _. AllGather (grouped_dims group view) es) }
        ensures apart { (start : gatherers.Groups) (group : List ℕ) (view : View) (es : List points.Entry) → AreOf group view start → WereGiven start es self
            → IfNone result (AllGather (grouped_dims group view) es → ⊥) }
    {
        if !self.is_sound {
            return None;
        }
        Some(self.items)
    }

    /// Takes in a point by its grouped coordinates. Where it has those of the last group, as most do, no more of it is read.
    fn gather(&mut self, entry: &Coded<'_>) -> Result<(), RowsStop>
        ensures took { ArePlaced self.old.is_ascending self.old.items self.old.index.keys → AreKept self.old.dims self.old.items
            → OnOk result (TookIn self.old.items self.new.items (kept_entry self.old.dims entry.now)) }
        ensures placed { ArePlaced self.old.is_ascending self.old.items self.old.index.keys → AreKept self.old.dims self.old.items
            → OnOk result (ArePlaced self.new.is_ascending self.new.items self.new.index.keys) }
        ensures damaged { ArePlaced self.old.is_ascending self.old.items self.old.index.keys → AreKept self.old.dims self.old.items
            → IfErr result (λ stop. stop ≡ stops.Damaged → StaysApart self.old.items (kept_entry self.old.dims entry.now)) }
        ensures dims { self.new.dims ≡ self.old.dims }
        ensures still { self.new.is_sound ≡ self.old.is_sound }
    {
        if self.is_ascending && is_at_last(&self.items, &self.dims, entry) {
            let last = self.items.len() - 1;
            return join_at(&mut self.items, last, entry);
        }
        let mut point = entry.point();
        point.at = kept_place(&self.dims, &point.at);
        self.gather_point(&point, entry)
    }

    /// Takes in a point that has its grouped coordinates alone. It stands apart, so that a point of the last group saves few registers.
    #[inline(never)]
    fn gather_point(&mut self, point: &Point, entry: &Coded<'_>) -> Result<(), RowsStop>
        ensures took { ArePlaced self.old.is_ascending self.old.items self.old.index.keys
            → OnOk result (TookIn self.old.items self.new.items (at_point point.now entry.now)) }
        ensures placed { ArePlaced self.old.is_ascending self.old.items self.old.index.keys
            → OnOk result (ArePlaced self.new.is_ascending self.new.items self.new.index.keys) }
        ensures damaged { ArePlaced self.old.is_ascending self.old.items self.old.index.keys
            → IfErr result (λ stop. stop ≡ stops.Damaged → StaysApart self.old.items (at_point point.now entry.now)) }
        ensures dims { self.new.dims ≡ self.old.dims }
        ensures still { self.new.is_sound ≡ self.old.is_sound }
    {
        if !self.is_ascending {
            return gather_any(
                &mut self.items,
                &mut self.index,
                &mut self.hints,
                point,
                entry,
            );
        }
        if gather_next(&mut self.items, point, entry)? {
            return Ok(());
        }
        self.hints = Hints::with_room(self.alloc)?;
        self.index = index_of(self.alloc, &self.items)?;
        self.is_ascending = false;
        gather_any(
            &mut self.items,
            &mut self.index,
            &mut self.hints,
            point,
            entry,
        )
    }
}

impl Taker for Groups {
    ghost was_given = { WereGiven };

    fn take(&mut self, entry: &Coded<'_>) -> Result<(), Memory> {
        if !self.is_sound {
            return Ok(());
        }
        match self.gather(entry) {
            Ok(()) => Ok(()),
            Err(RowsStop::Damaged) => {
                // A page that is bad further on is told before points that do not join, so the search goes on.
                self.is_sound = false;
                Ok(())
            }
            Err(RowsStop::Memory) => Err(Memory),
        }
    }
}
