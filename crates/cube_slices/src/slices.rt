//! The command `slice`.
ghost use Rattle.script_lang.specs.declared.command.Command.TheVariants as says;
ghost use Rattle.cube_state.specs.Carried.{CarriesOut, IsReadyFor};
ghost use Rattle.std.specs.Prelude.{◌≡◌, ◌+◌, ◌%◌, Err};
ghost use Rattle.cube_slices.specs.Told.{CarriesOutAs, Tells};

use cube_state::{State, Stop};
use forest_root::Store;
use page_cache::Pages;
use reply_text::{plain, refused_slice};
use site_core::{SIDES, Site};
use slice_exec::{AnswerStop, rows_text};
use slice_lang::read_slice;
use slice_rows::SliceRows;
use std::alloc::Global;

/// Answers a slice over the accepted facts, or refuses its text for the first rule that it breaks. The session is unchanged, and nothing
/// is written. An error ends the session: a file failed, a page is damaged, or memory ran out.
pub fn slice<T: Site>(
    alloc: Global,
    pages: &mut Pages,
    state: &State,
    text: &[u8],
    site: &mut T,
) -> Result<Vec<u8>, Stop>
    requires ready { IsReadyFor T.Site site.old pages.old state.now }
    ensures carried { CarriesOut T.Site (says.Slice text.now) state.now state.now site.old site.new pages.old pages.new result }
{
    match state.store() {
        None => Ok(plain(alloc, "refused no schema")?),
        Some(store) => reply_to(alloc, pages, store, text, site),
    }
}

/// The reply to the text of a slice: its rows, or the first rule that it breaks.
fn reply_to<T: Site>(
    alloc: Global,
    pages: &mut Pages,
    store: &Store,
    text: &[u8],
    site: &mut T,
) -> Result<Vec<u8>, Stop>
    ensures { CarriesOutAs T.Site (says.Slice text.now) store.now site.old site.new pages.old pages.new result }
{
    match read_slice(alloc, &store.forest.schema, text) {
        Ok(slice) => told(
            alloc,
            slice_exec::answer_picked(alloc, site, pages, store, &slice),
        ),
        Err(refusal) => Ok(refused_slice(alloc, refusal)?),
    }
}

/// The reply, by an answer: its rows, that no view covers the slice, or why the command stops.
fn told(alloc: Global, answer: Result<SliceRows<'_>, AnswerStop>) -> Result<Vec<u8>, Stop>
    ensures { Tells answer.entry result }
{
    match answer {
        Ok(rows) => Ok(rows_text(alloc, &rows)?.into_vec()),
        Err(stop) => unanswered(alloc, stop),
    }
}

/// The reply if a slice has no answer: that no view covers it, or why the command stops.
pub(crate) fn unanswered(alloc: Global, stop: AnswerStop) -> Result<Vec<u8>, Stop>
    ensures { Tells (Err stop) result }
{
    match stop {
        AnswerStop::NotCovered => Ok(plain(alloc, "refused notcovered")?),
        AnswerStop::Disk => Err(Stop::Disk),
        AnswerStop::Damaged { file, offset } => Err(Stop::Damaged { file, offset }),
        AnswerStop::Memory => Err(Stop::Memory),
    }
}

/// Why a command stops if the rows it folds do not add up, as rows of facts do: damage at offset 0 of the live side.
pub(crate) fn spoilt(store: &Store) -> Stop
    ensures { result ≡ Stop.Damaged (2 + store.now.forest.body.generation % 2) 0 }
{
    Stop::Damaged {
        file: SIDES + (store.forest.body.generation % 2) as u32,
        offset: 0,
    }
}
