//! The command `rollup`.
ghost use Rattle.std.specs.Prelude.{◌≡◌, Ok};
ghost use Rattle.roll_up.specs.Levels.{Fit, extended};
ghost use Rattle.script_lang.specs.declared.command.Command.TheVariants as says;
ghost use Rattle.slice_lang.specs.Agreeing.{SliceAgrees};
ghost use Rattle.slice_lang.specs.Reading.{slice_of};
ghost use Rattle.spec_machine.specs.Machine.{base_slice};
ghost use Rattle.cube_state.specs.Carried.{CarriesOutWith, IsReadyFor};
ghost use Rattle.cube_state.specs.Levels.{FitSchema};
ghost use Rattle.cube_state.specs.Visits.{schema_of};
ghost use Rattle.cube_slices.specs.Told.{AreBase, CarriesOutOver, FoldTold, RowsTell, rolled_text};

use crate::slices::{spoilt, unanswered};
use cube_state::{State, Stop};
use fact_model::Slice;
use forest_root::Store;
use page_cache::Pages;
use reply_text::{answered, plain, refused_slice};
use roll_up::{LevelList, base_of, extend, fold_up};
use site_core::Site;
use slice_exec::{AnswerStop, answer_picked};
use slice_lang::read_slice;
use slice_rows::SliceRows;
use std::alloc::Global;

/// Answers a slice that may name levels, over the accepted facts with their parents, or refuses its text for the first rule that it breaks.
/// The session is unchanged, and nothing is written. An error ends the session: a file failed, a page is damaged, the rows of the base
/// slice do not add up, or memory ran out.
pub fn rollup<T: Site>(
    alloc: Global,
    pages: &mut Pages,
    state: &State,
    levels: &LevelList,
    text: &[u8],
    site: &mut T,
) -> Result<Vec<u8>, Stop>
    requires ready { IsReadyFor T.Site site.old pages.old state.now }
    requires fit { FitSchema (schema_of state.now) levels.now }
    ensures carried { CarriesOutWith T.Site levels.now (says.Rollup text.now) state.now state.now site.old site.new pages.old pages.new result }
{
    match state.store() {
        None => Ok(plain(alloc, "refused no schema")?),
        Some(store) => reply_to(alloc, pages, store, levels, text, site),
    }
}

/// The reply to the text of a roll-up: its rows, or the first rule that it breaks.
fn reply_to<T: Site>(
    alloc: Global,
    pages: &mut Pages,
    store: &Store,
    levels: &LevelList,
    text: &[u8],
    site: &mut T,
) -> Result<Vec<u8>, Stop>
    requires { Fit store.now.forest.schema levels.now }
    ensures { CarriesOutOver T.Site levels.now (says.Rollup text.now) store.now site.old site.new pages.old pages.new result }
{
    let schema = extend(alloc, &store.forest.schema, levels)?;
    match read_slice(alloc, &schema, text) {
        Ok(slice) => rolled(alloc, pages, store, levels, text, &slice, site),
        Err(refusal) => Ok(refused_slice(alloc, refusal)?),
    }
}

/// The reply to a slice that was read, from the rows of its base slice.
fn rolled<T: Site>(
    alloc: Global,
    pages: &mut Pages,
    store: &Store,
    levels: &LevelList,
    text: &[u8],
    slice: &Slice,
    site: &mut T,
) -> Result<Vec<u8>, Stop>
    requires read { slice_of (extended store.now.forest.schema levels.now) text.now ≡ Ok slice.now }
    requires fit { Fit store.now.forest.schema levels.now }
    requires agrees { SliceAgrees (extended store.now.forest.schema levels.now) slice.now }
    ensures { CarriesOutOver T.Site levels.now (says.Rollup text.now) store.now site.old site.new pages.old pages.new result }
{
    let base = base_of(alloc, &store.forest.schema, levels, slice)?;
    told(
        alloc,
        store,
        levels,
        slice,
        answer_picked(alloc, site, pages, store, &base),
    )
}

/// The reply, by the answer to a base slice.
fn told(
    alloc: Global,
    store: &Store,
    levels: &LevelList,
    slice: &Slice,
    answer: Result<SliceRows<'_>, AnswerStop>,
) -> Result<Vec<u8>, Stop>
    requires fit { Fit store.now.forest.schema levels.now }
    requires agrees { SliceAgrees (extended store.now.forest.schema levels.now) slice.now }
    requires form { AreBase (base_slice store.now.forest.schema levels.now slice.now) answer }
    ensures { FoldTold store.now (rolled_text store.now levels.now slice.now) answer.entry result }
{
    match answer {
        Ok(rows) => folded(alloc, store, levels, slice, &rows),
        Err(stop) => unanswered(alloc, stop),
    }
}

/// The rows of a base slice, rolled up, or damage if they do not add up, as rows of facts do.
fn folded(
    alloc: Global,
    store: &Store,
    levels: &LevelList,
    slice: &Slice,
    rows: &SliceRows<'_>,
) -> Result<Vec<u8>, Stop>
    requires fit { Fit store.now.forest.schema levels.now }
    requires agrees { SliceAgrees (extended store.now.forest.schema levels.now) slice.now }
    requires form { AreBase (base_slice store.now.forest.schema levels.now slice.now) (Ok rows.now) }
    ensures { RowsTell store.now rows.now (rolled_text store.now levels.now slice.now rows.now) result }
{
    if !rows.adds() {
        return Err(spoilt(store));
    }
    let found = fold_up(alloc, &store.forest.schema, levels, slice, rows)?;
    Ok(answered(alloc, &found)?)
}
