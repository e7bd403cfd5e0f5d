//! The coordinates of grouped attributes.
ghost use Rattle.std.specs.Prelude.{◌≡◌, ◌↔◌, ◌≤◌, ℕ, IsTrue, List, length};
ghost use Rattle.point_groups.specs.Kept.{grouped_dims, kept};

use page_entry::Coded;

/// Which attributes of a view are grouped.
pub(crate) fn grouped_dims(view: &[u32], group: &[u32]) -> [bool; 8]
    requires arity { length view.now ≤ 8 }
    ensures { (place : List ℕ) → kept result place ≡ kept (grouped_dims group.now view.now) place }
{
    let mut dims = [false; 8];
    for (i, attr) in view.iter().enumerate() {
        dims[i] = group.contains(attr);
    }
    dims
}

/// A place with these coordinates alone, and zero at the others.
pub(crate) fn kept_place(dims: &[bool; 8], place: &[u64; 8]) -> [u64; 8]
    ensures { result ≡ kept dims.now place.now }
{
    let mut kept = *place;
    for i in 0..8 {
        if !dims[i] {
            kept[i] = 0;
        }
    }
    kept
}

/// Shows that a lent point has eight coordinates, as its arity tells.
#[inline(always)]
fn eight_coordinates(entry: &Coded<'_>)
    ensures { length entry.now.point.at ≡ 8 }
{
    let _arity = entry.arity();
}

/// Whether a lent point has these coordinates of a place. No more of them are read than tell it.
pub(crate) fn is_kept_at(dims: &[bool; 8], place: &[u64; 8], entry: &Coded<'_>) -> bool
    ensures { IsTrue result ↔ (kept dims.now entry.now.point.at ≡ kept dims.now place.now) }
{
    for i in 0..8 {
        if dims[i] && entry.coordinate(i) != place[i] {
            return false;
        }
    }
    eight_coordinates(entry);
    true
}
