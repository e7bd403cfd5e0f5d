//! The covering view with the fewest points.
ghost use Rattle.std.specs.Prelude.{◌≡◌, ◌<◌, IfSome, length};
ghost use Rattle.std.specs.List.{list_all};
ghost use Rattle.fact_model.specs.Slice.{attr_of};
ghost use Rattle.cube_schema.specs.Lawful.{IsSchema};
ghost use Rattle.spec_points.specs.Agree.{among};
ghost use Rattle.view_route.specs.Routes.{Routes, covers, is_fewer};

use cube_schema::Schema;
use fact_model::{Cond, Slice};

/// The number of the view that answers a slice: of the views with all its grouped and bound attributes, one with the fewest points, and
/// of these the first. `counts` has the number of points of each view. None exactly if no view has all these attributes. Does not
/// allocate.
pub fn route(schema: &Schema, counts: &[u64; 32], slice: &Slice) -> Option<u32>
    requires { IsSchema schema.now }
    ensures { Routes schema.now.views counts.now slice.now result }
{
    let mut best: Option<u32> = None;
    for (number, view) in schema.views.as_slice().iter().enumerate() {
        if covers(view.as_slice(), slice) && is_fewer(counts, number as u32, best) {
            best = Some(number as u32);
        }
    }
    best
}

/// Whether the view has fewer points than the best one so far, if there is one.
fn is_fewer(counts: &[u64; 32], view: u32, best: Option<u32>) -> bool
    requires view { view < 32 }
    requires best { IfSome best (λ best. best < 32) }
    ensures { result ≡ is_fewer counts.now view best }
{
    match best {
        None => true,
        Some(best) => counts[view as usize] < counts[best as usize],
    }
}

/// Whether the view has all grouped and bound attributes of the slice. Does not allocate.
pub fn covers(view: &[u32], slice: &Slice) -> bool
    ensures { result ≡ covers view.now slice.now }
{
    has_all(view, slice.group.as_slice()) && has_bound(view, slice.conds.as_slice())
}

/// Whether the view has all these attributes.
fn has_all(view: &[u32], attrs: &[u32]) -> bool
    ensures { result ≡ list_all (among view.now) attrs.now }
{
    attrs.iter().all(|attr| view.contains(attr))
}

/// Whether the view has the attributes of all these conditions.
fn has_bound(view: &[u32], conds: &[Cond]) -> bool
    ensures { result ≡ list_all (λ c. among view.now (attr_of c)) conds.now }
{
    conds.iter().all(|cond| view.contains(&cond.attr()))
}
