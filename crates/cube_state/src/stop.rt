//! Why a session stops.

use fact_model::Memory;
use forest_open::{InitStop, OpenStop};
use forest_refresh::RefreshStop;

/// Why a session stopped.
#[derive(Clone, Copy, Debug, PartialEq, Eq)]
pub enum Stop {
    /// A file failed.
    Disk,
    /// The output failed. The first bytes of a reply may have been written.
    Output,
    /// A file does not hold what the warehouse writes, from this offset on.
    Damaged {
        /// The number of the file.
        file: u32,
        /// The offset in bytes.
        offset: u64,
    },
    /// Out of memory.
    Memory,
}

impl From<Memory> for Stop {
    ghost use Rattle.std.specs.Prelude.{◌≡◌};
    ghost use Rattle.cube_state.specs.declared.stop.Stop.TheVariants as stops;

    ghost from_gives = { λ _ stop. stop ≡ stops.Memory };

    fn from(_memory: Memory) -> Stop {
        Stop::Memory
    }
}

impl From<OpenStop> for Stop {
    ghost use Rattle.std.specs.Prelude.{◌≡◌};
    ghost use Rattle.cube_state.specs.Stops.{open_stop};

    ghost from_gives = { λ stop answer. answer ≡ open_stop stop };

    fn from(stop: OpenStop) -> Stop {
        match stop {
            OpenStop::Disk => Stop::Disk,
            OpenStop::Damaged { file, offset } => Stop::Damaged { file, offset },
            OpenStop::Memory => Stop::Memory,
        }
    }
}

impl From<InitStop> for Stop {
    ghost use Rattle.std.specs.Prelude.{◌≡◌};
    ghost use Rattle.cube_state.specs.Stops.{init_stop};

    ghost from_gives = { λ stop answer. answer ≡ init_stop stop };

    fn from(stop: InitStop) -> Stop {
        match stop {
            InitStop::Disk => Stop::Disk,
            InitStop::Memory => Stop::Memory,
        }
    }
}

impl From<RefreshStop> for Stop {
    ghost use Rattle.std.specs.Prelude.{◌≡◌};
    ghost use Rattle.cube_state.specs.Stops.{refresh_stop};

    ghost from_gives = { λ stop answer. answer ≡ refresh_stop stop };

    fn from(stop: RefreshStop) -> Stop {
        match stop {
            RefreshStop::Disk => Stop::Disk,
            RefreshStop::Damaged { file, offset } => Stop::Damaged { file, offset },
        }
    }
}
