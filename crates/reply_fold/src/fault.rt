//! Why an input has no reply of the whole.
ghost use Rattle.std.specs.Prelude.{◌≡◌};
ghost use Rattle.reply_fold.specs.declared.fault.Fault.TheVariants as faults;

use cube_schema::SchemaRefusal;
use fact_model::Memory;
use slice_lang::SliceRefusal;
use std::alloc::AllocError;

/// Why an input has no reply of the whole. Records are counted from 1, the first after the slice.
#[derive(Clone, Copy, Debug, PartialEq, Eq)]
pub enum Fault {
    /// No line after the first is `end`, so the block of the schema does not end.
    Heading,
    /// The block of the schema is refused for this reason.
    Schema(SchemaRefusal),
    /// The text of the slice is refused for this reason, and the first reply is not a refusal.
    Slice(SliceRefusal),
    /// The last line has no line feed, or no row count follows the last row: a reply is cut off.
    Cut,
    /// There is no reply.
    Nothing,
    /// This record is not a row of the slice, and not a count of the rows before it.
    Record(u64),
    /// The first reply is a refusal, and this record is a different reply.
    Differs(u64),
    /// The numbers of a column add up to more than 128 bits can hold.
    Sum,
    /// The source failed.
    Input,
    /// Out of memory.
    Memory,
}

impl From<Memory> for Fault {
    ghost from_gives = { λ _ fault. fault ≡ faults.Memory };

    fn from(_memory: Memory) -> Fault {
        Fault::Memory
    }
}

impl From<AllocError> for Fault {
    ghost from_gives = { λ _ fault. fault ≡ faults.Memory };

    fn from(_error: AllocError) -> Fault {
        Fault::Memory
    }
}
