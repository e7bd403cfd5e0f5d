//! The names of one attribute.
ghost use Rattle.std.specs.Prelude.{◌≡◌, ◌<◌, ◌-◌, [], ◌∷◌, ◌++◌, false, suc, IfOk, OnOk, OnErr, Some, None, not, length, take, option_map, option_copied, slice_get};
ghost use Rattle.std.specs.List.{list_any};
ghost use Rattle.std.specs.Str.{bytes_eq};
ghost use Rattle.spec_points.specs.Codes.{admitted, place};

use crate::name::{Name, NameRef};
use fact_model::Memory;
use indexmap::IndexSet;
use std::alloc::Global;
use std::marker::Model;
use text_hash::Seed;

/// Distinct texts in order of first appearance. Codes count from 1.
pub(crate) struct Names {
    alloc: Global,
    set: IndexSet<Name, Seed>,
}

// By hand, so that the proof that the set is let go stands here alone and not in each crate that lets names go.
impl Drop for Names {
    fn drop(self) {
        let Names {
            alloc: _alloc,
            set: _set,
        } = self;
    }
}

impl Model for Names {
    ghost use Rattle.std.specs.Prelude.{ℕ, List};

    ghost Value = { List (List ℕ) };

    ghost view = { λ names. names.set.keys };
}

impl Names {
    /// No names, for a hash of this seed. It takes no memory.
    pub(crate) fn new(alloc: Global, seed: Seed) -> Names
        ensures { result ≡ [] }
    {
        Names {
            alloc,
            set: IndexSet::with_hasher(alloc, seed),
        }
    }

    /// How many names there are.
    pub(crate) fn len(&self) -> usize
        ensures { result ≡ length self.now }
    {
        self.set.len()
    }

    /// The code of a text that has one.
    pub(crate) fn code_of(&self, text: &[u8]) -> Option<u64>
        ensures { result ≡ option_map suc (place bytes_eq text.now self.now) }
    {
        let _count = self.set.len();
        match self.set.get_index_of(NameRef { bytes: text }) {
            Some(index) => Some(index as u64 + 1),
            None => None,
        }
    }

    /// The code of a text that is one of the first so many names.
    pub(crate) fn code_within(&self, len: usize, text: &[u8]) -> Option<u64>
        ensures { result ≡ option_map suc (place bytes_eq text.now (take len self.now)) }
    {
        let code = self.code_of(text)?;
        if code > len as u64 {
            return None;
        }
        Some(code)
    }

    /// The text of a code above 0.
    pub(crate) fn text_of(&self, code: u64) -> Option<&[u8]>
        requires { 0 < code }
        ensures { option_copied result ≡ slice_get self.now (code - 1) }
    {
        match self.set.get_index((code - 1) as usize) {
            Some(name) => Some(name.as_bytes()),
            None => None,
        }
    }

    /// The code of a text, and whether it is new. A new text takes the next code.
    pub(crate) fn admit(&mut self, text: &[u8]) -> Result<(u64, bool), Memory>
        ensures names { OnOk result (self.new ≡ admitted bytes_eq self.old (text.now ∷ [])) }
        ensures code { IfOk result (λ r. Some r.0 ≡ option_map suc (place bytes_eq text.now self.new)) }
        ensures fresh { IfOk result (λ r. r.1 ≡ not (list_any (bytes_eq text.now) self.old)) }
        ensures unchanged { OnErr result (self.new ≡ self.old) }
    {
        match self.code_of(text) {
            Some(code) => Ok((code, false)),
            None => Ok((self.add(text)?, true)),
        }
    }

    /// Puts a text behind the names where it is none of them, and tells whether it was. It is hashed once.
    pub(crate) fn enter(&mut self, text: &[u8]) -> Result<bool, Memory>
        ensures names { OnOk result (self.new ≡ admitted bytes_eq self.old (text.now ∷ [])) }
        ensures fresh { IfOk result (λ fresh. fresh ≡ not (list_any (bytes_eq text.now) self.old)) }
        ensures unchanged { OnErr result (self.new ≡ self.old) }
    {
        let name = Name::of(self.alloc, text)?;
        let (_, fresh) = self.set.insert_full(name)?;
        Ok(fresh)
    }

    /// Adds a new text, and gives its code.
    fn add(&mut self, text: &[u8]) -> Result<u64, Memory>
        requires { list_any (bytes_eq text.now) self.old ≡ false }
        ensures names { OnOk result (self.new ≡ self.old ++ text.now ∷ []) }
        ensures code { IfOk result (λ code. Some code ≡ option_map suc (place bytes_eq text.now self.new)) }
        ensures unchanged { OnErr result (self.new ≡ self.old) }
    {
        let name = Name::of(self.alloc, text)?;
        let (index, _) = self.set.insert_full(name)?;
        let _count = self.set.len();
        Ok(index as u64 + 1)
    }

    /// Drops the newest names down to so many.
    pub(crate) fn forget(&mut self, len: usize)
        ensures { self.new ≡ take len self.old }
    {
        self.set.truncate(len);
    }
}
