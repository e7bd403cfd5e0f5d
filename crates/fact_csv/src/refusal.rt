//! Why a batch is refused.
ghost use Rattle.std.specs.Prelude.{◌≡◌};
ghost use Rattle.fact_csv.specs.declared.refusal.RowRefusal.TheVariants as refusals;

use fact_model::Memory;

/// Why a block gives no facts. Rows and fields count from 1.
#[derive(Clone, Copy, Debug, PartialEq, Eq)]
pub enum RowRefusal {
    /// There are more than 262,144 rows.
    Rows,
    /// This row does not have one field for each attribute and measure.
    Fields(u64),
    /// This field is not a number of its kind.
    Number {
        /// The number of the row.
        row: u64,
        /// The number of the field.
        field: u64,
    },
    /// This field of a text attribute has more than 255 bytes.
    Long {
        /// The number of the row.
        row: u64,
        /// The number of the field.
        field: u64,
    },
    /// Out of memory.
    Memory,
}

impl From<Memory> for RowRefusal {
    ghost from_gives = { λ _ refusal. refusal ≡ refusals.Memory };

    fn from(_memory: Memory) -> RowRefusal {
        RowRefusal::Memory
    }
}
