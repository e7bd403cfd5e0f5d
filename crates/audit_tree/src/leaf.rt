//! The leaf that is due.

ghost use Rattle.std.specs.Prelude.{◌≡◌, ◌↔◌, ◌<◌, ◌≤◌, ◌-◌, ℕ, [], IsTrue, IfNone, IfSome, get_or, length, min, slice_index};
ghost use Rattle.std.specs.List.{All};
ghost use Rattle.leaf_pack.specs.Leaf.{arity_of};
ghost use Rattle.page_entry.specs.Entries.{HasEntries, entries, page_count};
ghost use Rattle.page_fmt.specs.Trees.{room_of};
ghost use Rattle.page_fmt.specs.Writing.{AreEntries};
ghost use Rattle.audit_tree.specs.Fitting.{IsNextArity, due};
ghost use Rattle.audit_tree.specs.Numbers.{arities};
ghost use Rattle.audit_tree.specs.Packed.{IsWithin};

use cube_point::Shape;
use page_entry::{Coded, HEADER, PAGE, lent_entry, size_of_entry};
use page_fmt::ARITIES;
use tree_pack::Packer;

/// The least arity of which points are left.
pub(crate) fn next_arity(left: &[u64; ARITIES]) -> Option<usize>
    ensures next { IfSome result (λ arity. IsNextArity left.now arity) }
    ensures none { IfNone result (arities left.now ≡ []) }
{
    for arity in 0..ARITIES {
        if left[arity] > 0 {
            return Some(arity);
        }
    }
    None
}

/// How many points the next leaf has, where so many of its arity are left.
pub(crate) fn points_due(shape: &Shape, arity: usize, left: u64) -> u64
    requires arity { arity < 9 }
    requires measures { shape.now.measures ≤ 4 }
    ensures { result ≡ min (room_of shape.now arity) left }
{
    let room = (PAGE - HEADER) / size_of_entry(shape, arity as u8);
    (room as u64).min(left)
}

/// Whether no used coordinate of the point is above its limit.
fn is_within(entry: &Coded, limits: &[u64; 8]) -> bool
    requires { entry.now.point.arity ≤ 8 }
    ensures { IsTrue result ↔ ((i : ℕ) → i < entry.now.point.arity → slice_index entry.now.point.at i ≤ slice_index limits.now i) }
{
    for dimension in 0..entry.arity() as usize {
        if limits[dimension] < entry.coordinate(dimension) {
            return false;
        }
    }
    true
}

/// Whether all points of a leaf are within their limits.
pub(crate) fn are_within(
    page: &[u8; PAGE],
    shape: &Shape,
    count: usize,
    limits: &[[u64; 8]; ARITIES],
    arity: usize,
) -> bool
    requires page { HasEntries shape.now page.now }
    requires said { count ≡ page_count page.now }
    requires count { count ≡ length (entries shape.now page.now) }
    requires arity { arity < 9 }
    requires are { All (λ e. arity_of e ≡ arity) (entries shape.now page.now) }
    ensures { IsTrue result ↔ All (IsWithin limits.now) (entries shape.now page.now) }
{
    for index in 0..count {
        if !is_within(&lent_entry(page, shape, index), &limits[arity]) {
            return false;
        }
    }
    true
}

/// Moves all points of a leaf into the packer's buffer, which is empty.
pub(crate) fn push_all(packer: &mut Packer, page: &[u8; PAGE], shape: &Shape, count: usize)
    requires page { HasEntries shape.now page.now }
    requires said { count ≡ page_count page.now }
    requires count { count ≡ length (entries shape.now page.now) }
    requires shape { packer.old.at.shape ≡ shape.now }
    requires empty { packer.old.at.buffer ≡ [] }
    requires are { AreEntries shape.now (entries shape.now page.now) }
    ensures { packer.new.at ≡ record packer.old.at { buffer = entries shape.now page.now } }
{
    for index in 0..count {
        packer.push_coded(&lent_entry(page, shape, index));
    }
}
