//! Why points give no rows.
ghost use Rattle.std.specs.Prelude.{◌≡◌};
ghost use Rattle.point_groups.specs.declared.stop.RowsStop.TheVariants as stops;

use fact_model::Memory;
use std::alloc::{AllocError, AllocFailed};

/// Why points gave no rows.
#[derive(Clone, Copy, Debug, PartialEq, Eq)]
pub enum RowsStop {
    /// A coordinate stands for no value, or cells do not join: the points are not those of facts.
    Damaged,
    /// Want of memory.
    Memory,
}

impl From<Memory> for RowsStop {
    ghost from_gives = { λ _ stop. stop ≡ stops.Memory };

    fn from(_error: Memory) -> RowsStop {
        RowsStop::Memory
    }
}

impl From<AllocError> for RowsStop {
    ghost from_gives = { λ _ stop. stop ≡ stops.Memory };

    fn from(_error: AllocError) -> RowsStop {
        RowsStop::Memory
    }
}

impl<T: Drop> From<AllocFailed<T>> for RowsStop {
    ghost from_gives = { λ _ stop. stop ≡ stops.Memory };

    fn from(_error: AllocFailed<T>) -> RowsStop {
        RowsStop::Memory
    }
}
