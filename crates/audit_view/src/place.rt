//! The point of a coarser view to which one of a finer view belongs.

ghost use Rattle.std.specs.Prelude.{◌≡◌, ◌≤◌, ◌<◌, length};
ghost use Rattle.std.specs.List.{All};
ghost use Rattle.audit_view.specs.Rolling.{projected_at};

use cube_point::Point;
use page_entry::Coded;

/// The entry's point in the coarser view. `dims` are the finer view's dimensions that hold the coarser view's
/// attributes.
pub(crate) fn projected(entry: &Coded<'_>, dims: &[usize]) -> Point
    requires few { length dims.now ≤ 8 }
    ensures { result.at ≡ projected_at dims.now entry.now.point.at }
{
    let mut at = [0; 8];
    for place in 0..dims.len() {
        at[place] = entry.coordinate(dims[place]);
    }
    Point {
        arity: dims.len() as u8,
        at,
    }
}
