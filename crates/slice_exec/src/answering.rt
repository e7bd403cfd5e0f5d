//! The rows of a slice, from the view that answers it.
ghost use Rattle.std.specs.Prelude.{◌≡◌, ℕ, IsTrue, IfOk, IfErr, List};
ghost use Rattle.std.specs.List.{All};
ghost use Rattle.fact_model.specs.declared.fact.Fact as facts;
ghost use Rattle.fact_model.specs.Rows.{rows};
ghost use Rattle.spec_store.specs.Stored.{IsStoreOf};
ghost use Rattle.page_cache.specs.Keeping.{Agrees};
ghost use Rattle.slice_lang.specs.Agreeing.{SliceAgrees};
ghost use Rattle.view_route.specs.Routes.{IsCovering, IsRoute};
ghost use Rattle.slice_rows.specs.Grouped.{HasForm};
ghost use Rattle.slice_exec.specs.Answering.{AnswersFrom};
ghost use Rattle.slice_exec.specs.Answers.{IsJudged, IsNoDamage, rows_told};
ghost use Rattle.slice_exec.specs.Searching.{SearchesView};

use crate::finding::{attrs_of, find};
use crate::stop::AnswerStop;
use fact_model::Slice;
use forest_root::{Forest, Store};
use page_cache::Pages;
use point_groups::{Groups, RowsStop};
use site_core::{SIDES, Site};
use slice_rows::{SliceRows, rows_of};
use std::alloc::Global;
use view_route::route;

/// The rows of a slice: one for each group of the accepted facts that meet its conditions, ascending by key. They are made from the
/// points of a covering view with the fewest points. Of its tree, only pages whose boxes meet the conditions and that are not cached are
/// read. Nothing changes in the files, even after an error; cached pages that are as a read gives them stay so.
///
/// `NotCovered` is returned exactly if no view has all grouped and bound attributes. `Damaged` names a page of the live side, or
/// its offset 0 if a point has a coordinate without a value or cells do not join.
pub fn answer<'a, T: Site>(
    alloc: Global,
    site: &mut T,
    pages: &mut Pages,
    store: &'a Store,
    slice: &'a Slice,
) -> Result<SliceRows<'a>, AnswerStop>
    requires { SliceAgrees store.now.forest.schema slice.now }
    ensures answers { AnswersFrom T.Site (λ counts view. IsRoute store.now.forest.schema.views counts slice.now view) store.now slice.now
        site.old site.new pages.old pages.new result }
{
    let forest = &store.forest;
    match route(&forest.schema, &forest.body.counts, slice) {
        Some(view) => answer_from(alloc, site, pages, store, slice, view),
        None => Err(AnswerStop::NotCovered),
    }
}

/// The same from this view, which has all grouped and bound attributes. It never returns `NotCovered`.
pub fn answer_from<'a, T: Site>(
    alloc: Global,
    site: &mut T,
    pages: &mut Pages,
    store: &'a Store,
    slice: &'a Slice,
    view: u32,
) -> Result<SliceRows<'a>, AnswerStop>
    requires agrees { SliceAgrees store.now.forest.schema slice.now }
    requires covering { IsCovering store.now.forest.schema.views slice.now view }
    ensures answers { AnswersFrom T.Site (λ counts chosen. view ≡ chosen) store.now slice.now site.old site.new pages.old pages.new result }
{
    rows_of_view(alloc, site, pages, store, slice, view)
}

/// The rows by the points of a view.
fn rows_of_view<'a, T: Site>(
    alloc: Global,
    site: &mut T,
    pages: &mut Pages,
    store: &'a Store,
    slice: &'a Slice,
    view: u32,
) -> Result<SliceRows<'a>, AnswerStop>
    requires agrees { SliceAgrees store.now.forest.schema slice.now }
    requires covering { IsCovering store.now.forest.schema.views slice.now view }

    ensures rows { IsTrue T.tells → Agrees (T.disk site.old).files pages.old
        → (accepted : List facts.Fact) → IsStoreOf store.now accepted (T.disk site.old).files
        → IfOk result (λ found. found ≡ rows accepted slice.now) }
    ensures undamaged { IsTrue T.tells → Agrees (T.disk site.old).files pages.old
        → (accepted : List facts.Fact) → IsStoreOf store.now accepted (T.disk site.old).files
        → IfErr result IsNoDamage }

    // For any files.
    ensures judged { IsTrue T.tells → Agrees (T.disk site.old).files pages.old → IsJudged store.now slice.now view (T.disk site.old).files result }
    ensures form { IfOk result (All (HasForm store.now.dicts slice.now)) }
    ensures search { SearchesView T.Site store.now slice.now view site.old site.new pages.old pages.new result }
{
    let attrs = attrs_of(store, view);
    let mut groups = Groups::new(alloc, attrs, slice.group.as_slice());
    find(alloc, site, pages, store, slice, view, &mut groups)?;
    told(
        rows_of(alloc, &store.dicts, attrs, slice, groups),
        &store.forest,
    )
}

/// The rows, or why there are none. If they are not rows of facts, the live side is not what the warehouse writes, but no page can be
/// named: the damage is reported at its offset 0.
fn told<'a>(
    rows: Result<SliceRows<'a>, RowsStop>,
    forest: &Forest,
) -> Result<SliceRows<'a>, AnswerStop>
    ensures { result ≡ rows_told forest.now.body rows.entry }
{
    match rows {
        Ok(rows) => Ok(rows),
        Err(RowsStop::Damaged) => Err(AnswerStop::Damaged {
            file: SIDES + (forest.body.generation % 2) as u32,
            offset: 0,
        }),
        Err(RowsStop::Memory) => Err(AnswerStop::Memory),
    }
}
