//! The rows of a batch, sorted by keys.
ghost use Rattle.std.specs.Prelude.{◌≡◌, ◌<◌, ◌≤◌, ◌^◌, ℕ, Bool, List, IfOk, map, length};
ghost use Rattle.std.specs.List.Sorted.{IsPermutation, IsSortedBy};
ghost use Rattle.delta_agg.specs.Keys.{IsSortedOut, key_begins};
ghost use Rattle.delta_agg.specs.Rows.{cuts_by};

use crate::runs::Runs;
use fact_model::{ListOf, Memory};
use std::alloc::Global;

/// A row with a key for its place in a view.
pub(crate) trait RowKey {
    /// The row.
    ghost row_of: { Self → ℕ };

    /// Whether the first place comes before the second.
    ghost before: { Self → Self → Bool };

    /// Whether both have the same place.
    ghost same: { Self → Self → Bool };

    /// The row.
    fn row(&self) -> u32
        ensures { result ≡ row_of self.now };

    /// Whether both have the same place.
    fn has_place_of(&self, other: &Self) -> bool
        ensures { result ≡ same self.now other.now };

    /// Sorts keys in ascending order. Does not allocate.
    fn sort(keys: &mut [Self])
        ensures moved { IsPermutation keys.old keys.new }
        ensures sorted { IsSortedBy before keys.new };
}

/// The rows of keys in ascending order, cut wherever another place begins.
pub(crate) fn runs_of_keys<K: RowKey>(alloc: Global, keys: &mut [K]) -> Result<Runs, Memory>
    requires { length keys.old ≤ 2 ^ 18 }
    ensures { IfOk result (λ runs. IsSortedOut K.row_of K.before K.same keys.old runs.order runs.cuts) }
{
    K::sort(keys);
    let order = rows_of(alloc, keys)?;
    let cuts = cuts_of(alloc, keys)?;
    Ok(Runs {
        order: ListOf::from_vec(order),
        cuts: ListOf::from_vec(cuts),
    })
}

/// The rows of keys.
fn rows_of<K: RowKey>(alloc: Global, keys: &[K]) -> Result<Vec<u32>, Memory>
    ensures { IfOk result (λ rows. rows.items ≡ map K.row_of keys.now) }
{
    let mut rows = Vec::with_capacity(alloc, keys.len())?;
    for key in keys {
        rows.push(key.row())?;
    }
    Ok(rows)
}

/// The positions where the place differs from the one before, and then the end.
fn cuts_of<K: RowKey>(alloc: Global, keys: &[K]) -> Result<Vec<u32>, Memory>
    requires { length keys.now ≤ 2 ^ 18 }
    ensures { (past : K) → IfOk result (λ cuts. cuts.items ≡ cuts_by (key_begins K.same past keys.now) (length keys.now)) }
{
    let mut cuts = Vec::with_capacity(alloc, count(keys) + 1)?;
    for at in 0..keys.len() {
        if begins(keys, at) {
            cuts.push(at as u32)?;
        }
    }
    cuts.push(keys.len() as u32)?;
    Ok(cuts)
}

/// How many places the keys have, if keys of one place are neighbours.
fn count<K: RowKey>(keys: &[K]) -> usize
    ensures { result ≤ length keys.now }
{
    let mut count = 0;
    for at in 0..keys.len() {
        if begins(keys, at) {
            count += 1;
        }
    }
    count
}

/// Whether the key at this position has another place than the key before it.
fn begins<K: RowKey>(keys: &[K], at: usize) -> bool
    requires { at < length keys.now }
    ensures { (past : K) → result ≡ key_begins K.same past keys.now at }
{
    if at == 0 {
        return true;
    }
    !keys[at - 1].has_place_of(&keys[at])
}
