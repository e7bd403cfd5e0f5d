//! How many names there are, and dropping the newest.
ghost use Rattle.std.specs.Prelude.{◌≡◌, ◌<◌, ◌≤◌, ◌^◌, ℕ, [], length, get_or, slice_index, take};

use crate::names::Names;

/// How many names each attribute has.
#[derive(Clone, Copy, Debug, PartialEq, Eq)]
pub struct Lengths {
    /// By the number of the attribute; 0 for a number attribute and past the attributes.
    pub at: [u32; 16],
}

pub(crate) fn lengths_of(names: &[Names]) -> Lengths
    requires few { length names.now ≤ 16 }
    requires small { (a : ℕ) → length (get_or names.now a []) < 2 ^ 32 }
    ensures { (a : ℕ) → slice_index result.at a ≡ length (get_or names.now a []) }
{
    let mut at = [0; 16];
    for attr in 0..names.len() {
        at[attr] = names[attr].len() as u32;
    }
    Lengths { at }
}

/// Drops the newest names down to these lengths.
pub(crate) fn cut(names: &mut Vec<Names>, lengths: &Lengths)
    requires { length names.old.items ≤ 16 }
    ensures same { length names.new.items ≡ length names.old.items }
    ensures cut { (a : ℕ) → get_or names.new.items a [] ≡ take (slice_index lengths.now.at a) (get_or names.old.items a []) }
{
    for attr in 0..names.len() {
        names[attr].forget(lengths.at[attr] as usize);
    }
}
