//! Why a text is not a query.
use fact_model::Memory;

/// Why a text is not a query. The text is read from left to right. The first broken rule is named with the byte of its place; bytes count
/// from 1, and the place past the last byte is the length plus 1.
#[derive(Clone, Copy, Debug, PartialEq, Eq)]
pub enum SqlRefusal {
    /// Syntax error: something else is due here.
    Syntax(u64),
    /// The name that begins here is not `facts`.
    Table(u64),
    /// The name that begins here is not an attribute, or not a measure where one is due.
    Name(u64),
    /// The attribute named here is already grouped by, or is an item and not grouped by.
    Group(u64),
    /// The attribute may not be compared in this way with the literal that begins here.
    Value(u64),
    /// Out of memory.
    Memory,
}

impl From<Memory> for SqlRefusal {
    ghost use Rattle.std.specs.Prelude.{◌≡◌};
    ghost use Rattle.sql_lang.specs.declared.refusal.SqlRefusal.TheVariants as refused;

    ghost from_gives = { λ _ refusal. refusal ≡ refused.Memory };

    fn from(_memory: Memory) -> SqlRefusal {
        SqlRefusal::Memory
    }
}
