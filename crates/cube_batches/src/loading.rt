//! The commands `load`, `load N` and `generate`.
ghost use Rattle.cube_state.specs.Carried.{CarriesOut, IsReadyFor};
ghost use Rattle.cube_state.specs.Commands.{load_of};

use crate::committing::{Told, acknowledge, commit};
use crate::taking::{Taken, take_in};
use cube_state::{State, Stop};
use page_cache::Pages;
use site_core::Site;
use spec_machine::BatchSource;
use std::alloc::Global;

/// Adds the batch of a source at once and acknowledges it, or refuses it and writes nothing. A numbered batch that was accepted before is only
/// acknowledged again, and one that is not the next is refused. A stop at any moment leaves the files with the batch and its number or without
/// both, and so does an error, which ends the session: a file failed, a page is damaged, or memory ran out. The commit empties the page cache;
/// a batch that is refused or empty leaves it as it is.
pub fn load<T: Site>(
    alloc: Global,
    pages: &mut Pages,
    state: &mut State,
    source: BatchSource,
    site: &mut T,
) -> Result<Vec<u8>, Stop>
    requires ready { IsReadyFor T.Site site.old pages.old state.old }
    ensures carried { CarriesOut T.Site (load_of source) state.old state.new site.old site.new pages.old pages.new result }
{
    match take_in(alloc, state, source, site)? {
        Taken::Refused(reply) => Ok(reply),
        Taken::Empty => acknowledge(alloc, state, Told::Committed),
        Taken::Begun(refresh) => commit(alloc, pages, state, refresh, Told::Committed, site),
    }
}
