//! Where a view has a point.

ghost use Rattle.std.specs.Prelude.{◌≡◌, ◌↔◌, ◌≤◌, ◌<◌, true, IsTrue, IfNone, IfSome, get_or, length};
ghost use Rattle.cube_point.specs.declared.point.Entry as points;
ghost use Rattle.audit_points.specs.Kept.{points_of};
ghost use Rattle.page_entry.specs.Entries.{ascend, entry_before};
ghost use Rattle.audit_view.specs.Totals.{IsNowhere, StandsAt};

use audit_points::ViewPoints;
use cube_point::Point;
use std::cmp::Ordering;

/// The number of the view's point at the same place as `point`. It tries `near` and `near + 1` first, then searches by
/// halving.
pub(crate) fn find(view: &ViewPoints, point: &Point, near: usize) -> Option<usize>
    requires { near ≤ length (points_of view.now) }
    ensures found { IfSome result (StandsAt (points_of view.now) point.now.at) }
    ensures none { ascend entry_before (points_of view.now) ≡ true → IfNone result (IsNowhere (points_of view.now) point.now.at) }
{
    if is_at(view, point, near) {
        return Some(near);
    }
    if near < view.len() && is_at(view, point, near + 1) {
        return Some(near + 1);
    }
    halve(view, point)
}

/// Whether the point with this number exists and is at the same place as `point`.
fn is_at(view: &ViewPoints, point: &Point, index: usize) -> bool
    ensures { IsTrue result → StandsAt (points_of view.now) point.now.at index }
{
    if index >= view.len() {
        return false;
    }
    match view.point(index).compare(point) {
        Ordering::Equal => true,
        Ordering::Less | Ordering::Greater => false,
    }
}

/// The number of the view's point at the same place as `point`, found by halving.
fn halve(view: &ViewPoints, point: &Point) -> Option<usize>
    ensures found { IfSome result (StandsAt (points_of view.now) point.now.at) }
    ensures none { ascend entry_before (points_of view.now) ≡ true → IfNone result (IsNowhere (points_of view.now) point.now.at) }
{
    let mut low = 0;
    let mut high = view.len();
    while low < high {
        let middle = low + (high - low) / 2;
        match view.point(middle).compare(point) {
            Ordering::Less => low = middle + 1,
            Ordering::Equal => return Some(middle),
            Ordering::Greater => high = middle,
        }
    }
    None
}
