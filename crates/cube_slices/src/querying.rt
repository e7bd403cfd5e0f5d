//! The command `sql`.
ghost use Rattle.std.specs.Prelude.{◌≡◌, [], IfOk, Ok};
ghost use Rattle.sql_lang.specs.Reading.{query_of};
ghost use Rattle.script_lang.specs.declared.command.Command.TheVariants as says;
ghost use Rattle.cube_state.specs.Carried.{CarriesOut, IsReadyFor};
ghost use Rattle.sql_lang.specs.Agreeing.{SqlAgrees};
ghost use Rattle.sql_slice.specs.RowFold.{query_text};
ghost use Rattle.cube_slices.specs.Told.{AreWide, CarriesOutAs, FoldTold, RowsTell, where_covered};

use crate::slices::{spoilt, unanswered};
use cube_state::{State, Stop};
use fact_model::{ListOf, Memory, Rows};
use forest_root::Store;
use page_cache::Pages;
use replica_route::pick;
use reply_text::{plain, refused_query};
use site_core::Site;
use slice_exec::{AnswerStop, answer_picked};
use slice_rows::SliceRows;
use sql_lang::{Query, read_sql};
use sql_slice::{Plan, plan, sql_text};
use std::alloc::Global;

/// Answers a query over the accepted facts, or refuses its text for the first rule that it breaks. The session is unchanged, and nothing
/// is written. An error ends the session: a file failed, a page is damaged, the rows of the slice do not add up, or memory ran out.
pub fn sql<T: Site>(
    alloc: Global,
    pages: &mut Pages,
    state: &State,
    text: &[u8],
    site: &mut T,
) -> Result<Vec<u8>, Stop>
    requires ready { IsReadyFor T.Site site.old pages.old state.now }
    ensures carried { CarriesOut T.Site (says.Sql text.now) state.now state.now site.old site.new pages.old pages.new result }
{
    match state.store() {
        None => Ok(plain(alloc, "refused no schema")?),
        Some(store) => reply_to(alloc, pages, store, text, site),
    }
}

/// The reply to the text of a query: its records, or the first rule that it breaks.
fn reply_to<T: Site>(
    alloc: Global,
    pages: &mut Pages,
    store: &Store,
    text: &[u8],
    site: &mut T,
) -> Result<Vec<u8>, Stop>
    ensures { CarriesOutAs T.Site (says.Sql text.now) store.now site.old site.new pages.old pages.new result }
{
    match read_sql(alloc, &store.forest.schema, text) {
        Ok(query) => answered(alloc, pages, store, text, &query, site),
        Err(refusal) => Ok(refused_query(alloc, refusal)?),
    }
}

/// The reply to a query that was read.
fn answered<T: Site>(
    alloc: Global,
    pages: &mut Pages,
    store: &Store,
    text: &[u8],
    query: &Query,
    site: &mut T,
) -> Result<Vec<u8>, Stop>
    requires read { query_of store.now.forest.schema text.now ≡ Ok query.now }
    requires agrees { SqlAgrees store.now.forest.schema query.now }
    ensures { CarriesOutAs T.Site (says.Sql text.now) store.now site.old site.new pages.old pages.new result }
{
    let plan = plan(alloc, &store.forest.schema, query)?;
    if plan.empty {
        return Ok(without_rows(alloc, store, query, &plan)?);
    }
    told(
        alloc,
        store,
        query,
        &plan,
        answer_picked(alloc, site, pages, store, &plan.slice),
    )
}

/// The reply if no fact can pass the tests: no records, or that no view covers the query.
fn without_rows(alloc: Global, store: &Store, query: &Query, plan: &Plan) -> Result<Vec<u8>, Memory>
    ensures { IfOk result (λ reply. reply.items ≡ where_covered store.now plan.now.slice (query_text query.now plan.now [])) }
{
    let forest = &store.forest;
    match pick(&forest.schema, &forest.body.counts, &plan.slice) {
        Some(_) => Ok(sql_text(alloc, query, plan, &ListOf::new(alloc))?.into_vec()),
        None => plain(alloc, "refused notcovered"),
    }
}

/// The reply, by the answer to the query's slice.
fn told(
    alloc: Global,
    store: &Store,
    query: &Query,
    plan: &Plan,
    answer: Result<SliceRows<'_>, AnswerStop>,
) -> Result<Vec<u8>, Stop>
    requires { AreWide plan.now answer }
    ensures { FoldTold store.now (query_text query.now plan.now) answer.entry result }
{
    match answer {
        Ok(rows) => records(alloc, store, query, plan, &rows.to_rows(alloc)?),
        Err(stop) => unanswered(alloc, stop),
    }
}

/// The records from the rows of the query's slice, or damage if the rows do not add up, as rows of facts do.
fn records(
    alloc: Global,
    store: &Store,
    query: &Query,
    plan: &Plan,
    rows: &Rows,
) -> Result<Vec<u8>, Stop>
    requires { AreWide plan.now (Ok rows.now) }
    ensures { RowsTell store.now rows.now (query_text query.now plan.now rows.now) result }
{
    if !rows.adds() {
        return Err(spoilt(store));
    }
    Ok(sql_text(alloc, query, plan, rows)?.into_vec())
}
