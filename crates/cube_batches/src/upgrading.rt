//! The command `upgrade`.
ghost use Rattle.std.specs.Prelude.{◌≡◌, ◌<◌};
ghost use Rattle.page_fmt.specs.Formats.{wide_format};
ghost use Rattle.script_lang.specs.declared.command.Command.TheVariants as says;
ghost use Rattle.cube_state.specs.Carried.{CarriesOut, IsReadyFor};
ghost use Rattle.cube_batches.specs.Taking.{begin_stop};

use crate::committing::{Told, commit};
use crate::pending::reply;
use crate::taking::take_store;
use cube_state::{State, Stop};
use forest_refresh::{BeginStop, Refresh};
use forest_root::{Store, WIDE};
use page_cache::Pages;
use site_core::Site;
use std::alloc::Global;

/// Rewrites all pages in the greatest format, in which numbers are not limited to 32 bits, or refuses if no schema is declared or a batch is
/// pending. If the pages already have that format, it makes no call on a file. A stop at any moment leaves the facts as they were, in one format or
/// the other, and so does an error, which ends the session: a file failed, a page is damaged, or memory ran out. The commit empties the page cache.
pub fn upgrade<T: Site>(
    alloc: Global,
    pages: &mut Pages,
    state: &mut State,
    site: &mut T,
) -> Result<Vec<u8>, Stop>
    requires ready { IsReadyFor T.Site site.old pages.old state.old }
    ensures carried { CarriesOut T.Site says.Upgrade state.old state.new site.old site.new pages.old pages.new result }
{
    let store = match &*state {
        State::Idle(store) => store,
        State::Empty => return reply(alloc, "refused no schema"),
        State::Hollow(_) | State::Pending(_) => return reply(alloc, "refused pending"),
    };
    if store.forest.body.format >= WIDE {
        return reply(alloc, "upgraded");
    }
    let store = take_store(state);
    remake(alloc, pages, state, store, site)
}

/// Rewrites the pages of a store that has been moved out of the state.
fn remake<T: Site>(
    alloc: Global,
    pages: &mut Pages,
    state: &mut State,
    store: Store,
    site: &mut T,
) -> Result<Vec<u8>, Stop>
    requires narrow { store.forest.body.format < wide_format }
    requires ready { IsReadyFor T.Site site.old pages.old (State.Idle store) }
    ensures carried { CarriesOut T.Site says.Upgrade (State.Idle store) state.new site.old site.new pages.old pages.new result }
{
    match Refresh::begin_upgrade(alloc, site, store) {
        Ok(refresh) => commit(alloc, pages, state, refresh, Told::Upgraded, site),
        Err(fault) => Err(stop_of(fault.why)),
    }
}

/// Why the session stops if an upgrade has not begun. No limit refuses an upgrade.
fn stop_of(why: BeginStop) -> Stop
    ensures { result ≡ begin_stop why }
{
    match why {
        BeginStop::Disk => Stop::Disk,
        _ => Stop::Memory,
    }
}
