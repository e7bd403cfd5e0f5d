//! A name as the index of names has it, and what it is looked up by.
ghost use Rattle.std.specs.Prelude.{◌≡◌, [], ◌∷◌, IfOk, nat_eq};
ghost use Rattle.std.specs.Cmp.{on_equiv, partial_equiv_from_equiv};
ghost use Rattle.std.specs.Cmp.Lexicographic.{bytes_decides, nat_list_eq_equiv, pointwise};
ghost use Rattle.std.proofs.Common.{ap};

use fact_model::Memory;
use indexmap::Equivalent;
use smallvec::SmallVec;
use std::alloc::Global;
use std::hash::{Hash, Hasher};
use std::marker::Model;

/// The most bytes of a name that lies in the index itself.
const SHORT: usize = 22;

/// A name.
#[derive(Drop)]
pub(crate) struct Name {
    bytes: SmallVec<u8, SHORT>,
}

impl Model for Name {
    ghost use Rattle.std.specs.Prelude.{ℕ, List};

    ghost Value = { List ℕ };

    ghost view = { λ name. name.bytes.items };
}

impl Name {
    /// The name of these bytes.
    pub(crate) fn of(alloc: Global, bytes: &[u8]) -> Result<Name, Memory>
        ensures { IfOk result (λ name. name ≡ bytes.now) }
    {
        let bytes = SmallVec::from_slice(alloc, bytes)?;
        Ok(Name { bytes })
    }

    /// Its bytes.
    pub(crate) fn as_bytes(&self) -> &[u8]
        ensures { result.now ≡ self.now }
    {
        self.bytes.as_slice()
    }
}

impl PartialEq for Name {
    ghost eq = { pointwise nat_eq };

    ghost laws = { partial_equiv_from_equiv nat_list_eq_equiv };

    fn eq(&self, other: &Name) -> bool {
        self.as_bytes() == other.as_bytes()
    }
}

impl Eq for Name {
    ghost laws = { nat_list_eq_equiv };
}

// All bytes at once, so that a hasher takes them by words.
impl Hash for Name {
    ghost hash_input = { λ name. name ∷ [] };

    ghost respects_eq = { λ x y same. ap (λ bytes. bytes ∷ []) ((bytes_decides x y).0 same) };

    fn hash<H: Hasher>(&self, state: &mut H) {
        state.write(self.as_bytes());
    }
}

/// The bytes of a name that is looked up. It takes no memory.
#[derive(Clone, Copy)]
pub(crate) struct NameRef<'a> {
    pub(crate) bytes: &'a [u8],
}

impl PartialEq for NameRef<'_> {
    ghost eq = { λ x y. pointwise nat_eq x.bytes.now y.bytes.now };

    ghost laws = { partial_equiv_from_equiv (on_equiv (λ name. name.bytes.now) nat_list_eq_equiv) };

    fn eq(&self, other: &Self) -> bool {
        self.bytes == other.bytes
    }
}

impl Eq for NameRef<'_> {
    ghost laws = { on_equiv (λ name. name.bytes.now) nat_list_eq_equiv };
}

impl Hash for NameRef<'_> {
    ghost hash_input = { λ name. name.bytes.now ∷ [] };

    ghost respects_eq = { λ x y same. ap (λ bytes. bytes ∷ []) ((bytes_decides x.bytes.now y.bytes.now).0 same) };

    fn hash<H: Hasher>(&self, state: &mut H) {
        state.write(self.bytes);
    }
}

impl Equivalent<Name> for NameRef<'_> {
    ghost equivalent = { λ name key. pointwise nat_eq name.bytes.now key };

    ghost respects_hash = { λ name key same. ap (λ bytes. bytes ∷ []) ((bytes_decides name.bytes.now key).0 same) };

    ghost respects_eq = { λ name x y. nat_list_eq_equiv.congr name.bytes.now x y };

    fn equivalent(&self, key: &Name) -> bool {
        self.bytes == key.as_bytes()
    }
}
