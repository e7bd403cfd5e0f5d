//! The join of two cells of one point.
ghost use Rattle.std.specs.Prelude.{◌≡◌, IfOk, OnOk, OnErr};
ghost use Rattle.fact_model.specs.Cell.{FitCells};
ghost use Rattle.spec_points.specs.Entries.{both};

use cube_point::Entry;

/// The cells of a point cannot be joined: their counts or their sums do not add up within their types.
#[derive(Clone, Copy, Debug, PartialEq, Eq)]
pub struct DoesNotJoin;

/// The first entry, with its cell joined to that of the second if they add up.
pub fn joined(old: &Entry, new: &Entry) -> Result<Entry, DoesNotJoin>
    requires { old.now.cell.measures ≡ new.now.cell.measures }
    ensures entry { IfOk result (λ entry. entry ≡ both old.now new.now) }
    ensures joins { OnOk result (FitCells old.now.cell new.now.cell) }
    ensures apart { OnErr result (FitCells old.now.cell new.now.cell → ⊥) }
{
    if !old.cell.fits(&new.cell) {
        return Err(DoesNotJoin);
    }
    let mut both = *old;
    both.cell.join(&new.cell);
    Ok(both)
}
