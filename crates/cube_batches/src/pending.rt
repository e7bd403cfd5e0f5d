//! The commands `begin`, `step`, `finish` and `abandon`, for a pending batch.
ghost use Rattle.std.specs.Prelude.{◌≡◌};
ghost use Rattle.reply_text.specs.Replies.{line};
ghost use Rattle.script_lang.specs.declared.command.Command.TheVariants as says;
ghost use Rattle.cube_state.specs.Batches.{pending_line};
ghost use Rattle.cube_state.specs.Carried.{CarriesOut, CarriesOutAlone, IsReadyFor};
ghost use Rattle.cube_state.specs.Frames.{RunsOn};
ghost use Rattle.cube_batches.specs.Committing.{SaysOnly};
ghost use Rattle.cube_batches.specs.Dropping.{IsDropped, hollow_of};

use crate::committing::{Told, acknowledge, commit};
use crate::taking::{Taken, take_in};
use cube_state::{State, Stop};
use page_cache::Pages;
use script_lang::Block;
use site_core::Site;
use spec_machine::BatchSource;
use std::alloc::Global;
use std::mem::replace;

/// Makes the facts of a block pending, or refuses them. It makes at most one write, and none if the batch is empty or refused. A stop at any
/// moment leaves the files with the facts that they had, and so does an error, which ends the session: a file failed, or memory ran out.
pub fn begin<T: Site>(
    alloc: Global,
    state: &mut State,
    block: Block,
    site: &mut T,
) -> Result<Vec<u8>, Stop>
    requires runs { RunsOn T.Site site.old state.old }
    ensures carried { CarriesOutAlone T.Site (says.Begin block) state.old state.new site.old site.new result }
{
    match take_in(alloc, state, BatchSource::Rows(block), site)? {
        Taken::Refused(refusal) => Ok(refusal),
        Taken::Empty => {
            hollow(state);
            reply(alloc, "begun")
        }
        Taken::Begun(refresh) => {
            state.set(State::Pending(refresh));
            reply(alloc, "begun")
        }
    }
}

/// Makes an empty batch pending if no batch was.
fn hollow(state: &mut State)
    ensures { state.new ≡ hollow_of state.old }
{
    let next = match replace(state, State::Empty) {
        State::Idle(store) => State::Hollow(store),
        other => other,
    };
    state.set(next);
}

/// Makes up to `moves` moves of the pending batch, or refuses if no batch is pending. An empty batch has no moves. A move is a read of an old
/// page, a write of a new one, or a point; slices do not see its effects. A stop at any moment leaves the files with the facts that they had,
/// and so does an error, which ends the session: a file failed, a page is damaged, or memory ran out.
pub fn step<T: Site>(
    alloc: Global,
    state: &mut State,
    moves: u64,
    site: &mut T,
) -> Result<Vec<u8>, Stop>
    requires runs { RunsOn T.Site site.old state.old }
    ensures carried { CarriesOutAlone T.Site (says.Step moves) state.old state.new site.old site.new result }
{
    let reply = pending_reply(alloc, state, "stepped")?;
    let State::Pending(refresh) = state else {
        return Ok(reply);
    };
    // In place: a refresh is too large to be passed from call to call for each move.
    refresh.step(site, moves)?;
    Ok(reply)
}

/// Commits the pending batch and acknowledges it, or refuses if there is none. A stop at any moment leaves the files with the facts of the
/// batch or without them, and so does an error, which ends the session: a file failed, a page is damaged, or memory ran out.
pub fn finish<T: Site>(
    alloc: Global,
    pages: &mut Pages,
    state: &mut State,
    site: &mut T,
) -> Result<Vec<u8>, Stop>
    requires ready { IsReadyFor T.Site site.old pages.old state.old }
    ensures carried { CarriesOut T.Site says.Finish state.old state.new site.old site.new pages.old pages.new result }
{
    let had = replace(state, State::Empty);
    match had {
        State::Pending(refresh) => commit(alloc, pages, state, refresh, Told::Committed, site),
        State::Hollow(store) => {
            state.set(State::Idle(store));
            acknowledge(alloc, state, Told::Committed)
        }
        other => {
            state.set(other);
            reply(alloc, "refused nothing pending")
        }
    }
}

/// Discards the pending batch, without a call on a file, or refuses if there is none. An error means out of memory.
pub fn abandon<T: Site>(alloc: Global, state: &mut State, site: &T) -> Result<Vec<u8>, Stop>
    requires runs { RunsOn T.Site site.now state.old }
    ensures carried { CarriesOutAlone T.Site says.Abandon state.old state.new site.now site.now result }
{
    let reply = pending_reply(alloc, state, "abandoned")?;
    drop_batch(state);
    Ok(reply)
}

/// Discards the pending batch, if there is one.
fn drop_batch(state: &mut State)
    ensures { IsDropped state.old state.new }
{
    match replace(state, State::Empty) {
        State::Pending(refresh) => state.set(State::Idle(refresh.abandon())),
        State::Hollow(store) => state.set(State::Idle(store)),
        other => state.set(other),
    }
}

/// The reply if no batch is pending, or `text` if one is.
fn pending_reply(alloc: Global, state: &State, text: &'static str) -> Result<Vec<u8>, Stop>
    ensures { SaysOnly (pending_line state.now text.now) result }
{
    match state {
        State::Empty | State::Idle(_) => reply(alloc, "refused nothing pending"),
        State::Hollow(_) | State::Pending(_) => reply(alloc, text),
    }
}

/// A line as the reply.
pub(crate) fn reply(alloc: Global, text: &'static str) -> Result<Vec<u8>, Stop>
    ensures { SaysOnly (line text.now) result }
{
    Ok(reply_text::plain(alloc, text)?)
}
