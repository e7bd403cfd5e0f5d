//! The rows of a batch in the order of a view, and where each place begins.
ghost use Rattle.std.specs.Prelude.{◌≡◌, ◌<◌, ◌≤◌, ◌^◌, IfOk, length};
ghost use Rattle.std.specs.List.{All};
ghost use Rattle.delta_agg.specs.Batch.{HasPlace};
ghost use Rattle.delta_agg.specs.Rows.{IsOrdered, IsUnder};

use crate::digits::{digits_of, room_within};
use crate::keys::runs_of_keys;
use crate::number::{Number, make_keys};
use crate::placed::runs_by_places;
use crate::runs::{Runs, ViewRuns};
use fact_batch::FlatRows;
use fact_model::{ListOf, Memory};
use std::alloc::Global;

/// Memory for keys, reused for each view.
#[derive(Drop)]
pub(crate) struct Keys {
    short: Vec<u64>,
    long: Vec<u128>,
}

impl Keys {
    /// No memory yet.
    pub(crate) fn new(alloc: Global) -> Keys {
        Keys {
            short: Vec::new(alloc),
            long: Vec::new(alloc),
        }
    }
}

/// The runs of a view. `tops` has the greatest coordinate of each attribute.
pub(crate) fn runs_of(
    alloc: Global,
    view: &[u32],
    coded: &FlatRows<u64>,
    tops: &[u64],
    keys: &mut Keys,
) -> Result<ViewRuns, Memory>
    requires arity { length view.now ≤ 8 }
    requires places { All (HasPlace view.now) coded.now }
    requires rows { length coded.now ≤ 2 ^ 18 }
    requires declared { All (λ a. a < length tops.now) view.now }
    requires under { All (IsUnder tops.now) coded.now }
    ensures view { IfOk result (λ v. v.view ≡ view.now) }
    ensures ordered { IfOk result (λ v. IsOrdered view.now coded.now v.runs.order v.runs.cuts) }
{
    let runs = ordered(alloc, view, coded, tops, keys)?;
    let mut attrs = Vec::with_capacity(alloc, view.len())?;
    attrs.extend_from_slice(view)?;
    Ok(ViewRuns {
        view: ListOf::from_vec(attrs),
        runs,
    })
}

/// All rows in the order of the view, cut into runs. It uses the smallest keys that can tell its places apart.
fn ordered(
    alloc: Global,
    view: &[u32],
    coded: &FlatRows<u64>,
    tops: &[u64],
    keys: &mut Keys,
) -> Result<Runs, Memory>
    requires arity { length view.now ≤ 8 }
    requires places { All (HasPlace view.now) coded.now }
    requires rows { length coded.now ≤ 2 ^ 18 }
    requires declared { All (λ a. a < length tops.now) view.now }
    requires under { All (IsUnder tops.now) coded.now }
    ensures { IfOk result (λ runs. IsOrdered view.now coded.now runs.order runs.cuts) }
{
    let digits = digits_of(alloc, view, tops)?;
    if room_within(&digits, <u64 as Number>::MOST_PLACES) {
        make_keys(&mut keys.short, &digits, coded)?;
        return runs_of_keys(alloc, &mut keys.short);
    }
    if room_within(&digits, <u128 as Number>::MOST_PLACES) {
        make_keys(&mut keys.long, &digits, coded)?;
        return runs_of_keys(alloc, &mut keys.long);
    }
    runs_by_places(alloc, view, coded)
}
