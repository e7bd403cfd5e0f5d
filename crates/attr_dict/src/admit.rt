//! Why facts are not admitted, and the first attribute that is full.
ghost use Rattle.std.specs.Prelude.{◌≡◌, ◌≤◌, [], length, get_or, find, nat_lt};
ghost use Rattle.std.specs.List.{range_with_len};
ghost use Rattle.cube_schema.specs.Kinds.{max_of};

use crate::names::Names;
use cube_schema::Kind;
use fact_model::Memory;

/// Why facts are not admitted.
#[derive(Clone, Copy, Debug, PartialEq, Eq)]
pub enum DictRefusal {
    /// This attribute is the first whose distinct values would pass its `max`.
    Full(u32),
    /// Memory was short.
    Memory,
}

impl From<Memory> for DictRefusal {
    ghost use Rattle.attr_dict.specs.declared.admit.DictRefusal.TheVariants as refused;

    ghost from_gives = { λ _ refusal. refusal ≡ refused.Memory };

    fn from(_memory: Memory) -> DictRefusal {
        DictRefusal::Memory
    }
}

fn max_of(kind: Kind) -> usize
    ensures { result ≡ max_of kind }
{
    match kind {
        Kind::Word { max } => max as usize,
        Kind::Number => 0,
    }
}

/// The first attribute with more names than its `max`.
pub(crate) fn first_full(kinds: &[Kind], names: &[Names]) -> Option<u32>
    requires same { length names.now ≡ length kinds.now }
    requires few { length kinds.now ≤ 16 }
    ensures { result ≡ find (λ a. nat_lt (max_of (get_or kinds.now a Kind.Number)) (length (get_or names.now a []))) (range_with_len 0 (length kinds.now)) }
{
    for attr in 0..names.len() {
        if names[attr].len() > max_of(kinds[attr]) {
            return Some(attr as u32);
        }
    }
    None
}
