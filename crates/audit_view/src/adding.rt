//! Whether the counts of points add up.

ghost use Rattle.std.specs.Prelude.{◌↔◌, IsTrue};
ghost use Rattle.audit_points.specs.Kept.{points_of};
ghost use Rattle.audit_view.specs.Rolling.{AddUp};

use audit_points::ViewPoints;

/// Whether the counts of a view's points add up to `facts`.
pub fn do_add_up(view: &ViewPoints, facts: u64) -> bool
    ensures { IsTrue result ↔ AddUp facts (points_of view.now) }
{
    let mut left = facts;
    for index in 0..view.len() {
        let count = view.point(index).cell().count;
        if left < count {
            return false;
        }
        left -= count;
    }
    left == 0
}
