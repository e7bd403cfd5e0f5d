//! What an audit answers.

ghost use Rattle.std.specs.Prelude.{◌≡◌};

use fact_model::Memory;

/// Whether the files of a warehouse keep all rules.
#[derive(Clone, Copy, Debug, PartialEq, Eq)]
pub enum Verdict {
    /// No schema is declared.
    Empty,
    /// All rules are kept.
    Yes,
    /// The first rule that is broken is broken here.
    No {
        /// The number of the file.
        file: u32,
        /// The offset in bytes.
        offset: u64,
    },
}

/// Why there is no verdict.
#[derive(Clone, Copy, Debug, PartialEq, Eq)]
pub enum AuditStop {
    /// A call on a file failed.
    Disk,
    /// Want of memory.
    Memory,
}

impl From<Memory> for AuditStop {
    ghost use Rattle.forest_audit.specs.declared.verdict.AuditStop.TheVariants as stops;

    ghost from_gives = { λ _ stop. stop ≡ stops.Memory };

    fn from(_memory: Memory) -> AuditStop {
        AuditStop::Memory
    }
}
