//! The command `explain`.
ghost use Rattle.std.specs.Prelude.{◌≡◌, IfOk, IfErr};
ghost use Rattle.cube_state.specs.Slices.{explain_text};
ghost use Rattle.cube_state.specs.Visits.{store_of};

use cube_state::{State, Stop};
use fact_model::Memory;
use forest_root::Store;
use replica_route::pick;
use reply_text::{picked, plain, refused_slice};
use slice_lang::read_slice;
use std::alloc::Global;

/// Which view answers the slice in the text, and how its points lie there; or the first rule that the text breaks. Makes no call on a
/// file. An error means out of memory.
pub fn explain(alloc: Global, state: &State, text: &[u8]) -> Result<Vec<u8>, Stop>
    ensures said { IfOk result (λ reply. reply.items ≡ explain_text (store_of state.now) text.now) }
    ensures memory { IfErr result (λ stop. stop ≡ Stop.Memory) }
{
    match state.store() {
        None => Ok(plain(alloc, "refused no schema")?),
        Some(store) => Ok(explained(alloc, store, text)?),
    }
}

/// The reply of a session with this store.
fn explained(alloc: Global, store: &Store, text: &[u8]) -> Result<Vec<u8>, Memory>
    ensures { IfOk result (λ reply. reply.items ≡ explain_text (Some store.now) text.now) }
{
    let forest = &store.forest;
    match read_slice(alloc, &forest.schema, text) {
        Ok(slice) => match pick(&forest.schema, &forest.body.counts, &slice) {
            Some(choice) => picked(alloc, choice),
            None => plain(alloc, "refused notcovered"),
        },
        Err(refusal) => refused_slice(alloc, refusal),
    }
}
