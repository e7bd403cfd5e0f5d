//! Replies that ask the files nothing.
ghost use Rattle.std.specs.Prelude.{◌≡◌, IfOk, IfErr};
ghost use Rattle.reply_text.specs.Replies.{line};
ghost use Rattle.cube_state.specs.Session.{IsRunning, state_text};

use cube_state::{State, Stop};
use std::alloc::Global;

/// A line. An error is want of memory.
pub fn plain(alloc: Global, text: &str) -> Result<Vec<u8>, Stop>
    ensures said { IfOk result (λ reply. reply.items ≡ line text.now) }
    ensures memory { IfErr result (λ stop. stop ≡ Stop.Memory) }
{
    Ok(reply_text::plain(alloc, text)?)
}

/// How many facts there are, and how many are pending. An error is want of memory.
pub fn status(alloc: Global, state: &State) -> Result<Vec<u8>, Stop>
    requires { IsRunning state.now }
    ensures said { IfOk result (λ reply. reply.items ≡ state_text state.now) }
    ensures memory { IfErr result (λ stop. stop ≡ Stop.Memory) }
{
    Ok(match state {
        State::Empty => reply_text::plain(alloc, "no schema")?,
        State::Idle(store) => reply_text::facts(alloc, store.forest.body.facts)?,
        State::Hollow(store) => reply_text::pending(alloc, store.forest.body.facts, 0)?,
        State::Pending(refresh) => {
            let count = refresh.store().forest.body.facts;
            reply_text::pending(alloc, count, refresh.facts().saturating_sub(count))?
        }
    })
}
