//! Why a text is no slice.
use fact_model::Memory;

/// Why a text is no slice. The text is read from left to right, and the first broken rule is named with the byte of its place; bytes
/// count from 1, and the place past the last byte is the length plus 1.
#[derive(Clone, Copy, Debug, PartialEq, Eq)]
pub enum SliceRefusal {
    /// Something else is due here: a word, a name, a value, a sign or the end.
    Syntax(u64),
    /// The name that begins here is that of no attribute.
    UnknownAttr(u64),
    /// The name that begins here is that of no measure.
    UnknownMeasure(u64),
    /// The attribute that is named here is grouped by already, or has a condition already.
    Repeated(u64),
    /// The value that begins here is none that the attribute may have.
    BadValue(u64),
    /// Memory was short.
    Memory,
}

impl From<Memory> for SliceRefusal {
    ghost use Rattle.std.specs.Prelude.{◌≡◌};
    ghost use Rattle.slice_lang.specs.declared.refusal.SliceRefusal.TheVariants as refused;

    ghost from_gives = { λ _ refusal. refusal ≡ refused.Memory };

    fn from(_memory: Memory) -> SliceRefusal {
        SliceRefusal::Memory
    }
}
