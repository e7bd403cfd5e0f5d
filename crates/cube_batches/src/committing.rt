//! Commits a refresh that has begun, and acknowledges it.
ghost use Rattle.std.specs.Prelude.{◌≡◌, IsTrue};
ghost use Rattle.forest_refresh.specs.Begun.{IsGoing, IsReady};
ghost use Rattle.cube_batches.specs.Committing.{Commits, SaysOnly, fact_count, text_of};

use cube_state::{State, Stop};
use forest_refresh::Refresh;
use page_cache::Pages;
use site_core::Site;
use std::alloc::Global;

/// The reply after a refresh has ended.
#[derive(Clone, Copy, Debug, PartialEq, Eq)]
pub enum Told {
    /// Its batch is accepted.
    Committed,
    /// All pages have the greatest format.
    Upgraded,
}

/// Commits a refresh, empties the page cache, and returns the reply for `told`. The session then has the store of all facts. A stop at any
/// moment leaves the files with the facts of the batch or without them, and so does an error: a file failed, a page is damaged, or memory
/// ran out.
pub fn commit<T: Site>(
    alloc: Global,
    pages: &mut Pages,
    state: &mut State,
    refresh: Refresh,
    told: Told,
    site: &mut T,
) -> Result<Vec<u8>, Stop>
    requires goes { IsGoing refresh }
    requires ready { IsTrue T.tells → IsReady refresh (T.disk site.old) }
    ensures commits { Commits T.Site told refresh state.new site.old site.new pages.old pages.new result }
{
    let store = refresh.finish(site)?;
    // They belong to the side that was live until now.
    pages.clear();
    state.set(State::Idle(store));
    acknowledge(alloc, state, told)
}

/// The reply about what is accepted.
pub fn acknowledge(alloc: Global, state: &State, told: Told) -> Result<Vec<u8>, Stop>
    ensures { SaysOnly (text_of told (fact_count state.now)) result }
{
    Ok(match told {
        Told::Committed => reply_text::committed(alloc, facts(state))?,
        Told::Upgraded => reply_text::plain(alloc, "upgraded")?,
    })
}

/// The number of accepted facts.
fn facts(state: &State) -> u64
    ensures { result ≡ fact_count state.now }
{
    match state.store() {
        Some(store) => store.forest.body.facts,
        None => 0,
    }
}
