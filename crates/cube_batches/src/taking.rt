//! Takes in a batch: it is refused, or it begins.
ghost use Rattle.std.specs.Prelude.{◌≡◌, ◌<◌, IfOk, IfErr, Ok, Some, length};
ghost use Rattle.cube_state.specs.Batches.{given_to, refusal_text};
ghost use Rattle.cube_state.specs.Frames.{RunsOn};
ghost use Rattle.forest_refresh.specs.Next.{last_behind};
ghost use Rattle.spec_machine.specs.declared.batch_source.BatchSource as sources;
ghost use Rattle.cube_batches.specs.Reading.{IsBatchFor};
ghost use Rattle.cube_batches.specs.Taking.{IsIdle, OnlyRefuses, TakesIn, begin_stop};

use crate::batch::{Read, read_source};
use cube_schema::Schema;
use cube_state::{State, Stop};
use fact_batch::Batch;
use forest_refresh::{BeginStop, Refresh};
use forest_root::Store;
use site_core::Site;
use spec_machine::BatchSource;
use std::alloc::Global;
use std::mem::replace;

/// The outcome for the batch of a source.
#[derive(Drop)]
pub enum Taken {
    /// It is refused with this reply, and the session is unchanged.
    Refused(Vec<u8>),
    /// It has no facts, and the session is unchanged.
    Empty,
    /// It has begun: the store has moved from the state to the refresh.
    Begun(Refresh),
}

/// Begins to add the batch of a source, or refuses it: without a schema, while another batch is pending, for a fault in its rows or its
/// number, or for the first limit that it would exceed. It makes at most one write, and none if the batch is empty or refused. A stop at any
/// moment leaves the files with the facts that they had, and so does an error: a file failed, or memory ran out.
pub fn take_in<T: Site>(
    alloc: Global,
    state: &mut State,
    source: BatchSource,
    site: &mut T,
) -> Result<Taken, Stop>
    requires runs { RunsOn T.Site site.old state.old }
    ensures takes { TakesIn T.Site source state.old state.new site.old site.new result }
{
    let store = match &*state {
        State::Idle(store) => store,
        State::Empty => return refused(alloc, "refused no schema"),
        State::Hollow(_) | State::Pending(_) => return refused(alloc, "refused pending"),
    };
    let last = store.forest.body.last;
    match read_source(alloc, &store.forest.schema, last, source)? {
        Read::Refused(reply) => Ok(Taken::Refused(reply)),
        Read::Batch(batch, number) => {
            if batch.is_empty() {
                return Ok(Taken::Empty);
            }
            let store = take_store(state);
            start(alloc, state, store, batch, number, site)
        }
    }
}

/// A refusal that does not depend on the batch.
fn refused(alloc: Global, text: &'static str) -> Result<Taken, Stop>
    ensures { OnlyRefuses text.now result }
{
    let reply = reply_text::plain(alloc, text)?;
    Ok(Taken::Refused(reply))
}

/// Moves the store out of a state in which no batch is pending.
pub(crate) fn take_store(state: &mut State) -> Store
    requires idle { IsIdle state.old }
    ensures { state.old ≡ State.Idle result }
{
    match replace(state, State::Empty) {
        State::Idle(store) => store,
        State::Empty | State::Hollow(_) | State::Pending(_) => unreachable!(),
    }
}

/// Begins with a batch that has a fact. The store has been moved out of the state.
fn start<T: Site>(
    alloc: Global,
    state: &mut State,
    store: Store,
    batch: Batch,
    number: Option<u64>,
    site: &mut T,
) -> Result<Taken, Stop>
    requires runs { RunsOn T.Site site.old (State.Idle store) }
    requires some { 0 < length batch }
    requires fits { IsBatchFor store.forest.schema store.forest.body.last batch number }
    ensures takes { (source : sources.BatchSource) → given_to store source ≡ Ok (batch, last_behind store.forest.body.last number)
        → TakesIn T.Site source (State.Idle store) state.new site.old site.new result }
{
    match Refresh::begin(alloc, site, store, batch, number) {
        Ok(refresh) => Ok(Taken::Begun(refresh)),
        Err(fault) => {
            let reply = refuse(alloc, &fault.store.forest.schema, fault.why);
            state.set(State::Idle(fault.store));
            Ok(Taken::Refused(reply?))
        }
    }
}

/// The refusal of a batch by the first limit that it would exceed. If no limit was the cause, the session stops.
fn refuse(alloc: Global, schema: &Schema, why: BeginStop) -> Result<Vec<u8>, Stop>
    ensures reply { IfOk result (λ reply. refusal_text schema.now why ≡ Some reply.items) }
    ensures stop { IfErr result (λ stop. stop ≡ begin_stop why) }
{
    match why {
        BeginStop::FactsFull => Ok(reply_text::plain(alloc, "refused facts")?),
        BeginStop::NamesFull(attr) => {
            Ok(reply_text::refused_names(alloc, schema.attr_name(attr))?)
        }
        BeginStop::Mass(measure) => {
            Ok(reply_text::refused_mass(alloc, schema.measure_name(measure))?)
        }
        BeginStop::Memory => Err(Stop::Memory),
        BeginStop::Disk => Err(Stop::Disk),
    }
}
