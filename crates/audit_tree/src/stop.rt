//! Why a tree is not gone through to its end.

ghost use Rattle.std.specs.Prelude.{◌≡◌};

use fact_model::Memory;
use site_core::Fault;

/// Why a tree is not gone through to its end.
#[derive(Clone, Copy, Debug, PartialEq, Eq)]
pub enum TreeStop {
    /// A call on the file failed.
    Disk,
    /// The page with this number is the first that breaks a rule.
    Broken {
        /// The number of the page in its file.
        page: u64,
    },
    /// Want of memory.
    Memory,
}

impl From<Fault> for TreeStop {
    ghost use Rattle.audit_tree.specs.declared.stop.TreeStop.TheVariants as stops;

    ghost from_gives = { λ _ stop. stop ≡ stops.Disk };

    fn from(_fault: Fault) -> TreeStop {
        TreeStop::Disk
    }
}

impl From<Memory> for TreeStop {
    ghost use Rattle.audit_tree.specs.declared.stop.TreeStop.TheVariants as stops;

    ghost from_gives = { λ _ stop. stop ≡ stops.Memory };

    fn from(_memory: Memory) -> TreeStop {
        TreeStop::Memory
    }
}
