//! The rows of a slice, from the view that is picked for it.
ghost use Rattle.replica_route.specs.Picked.{IsPicked};
ghost use Rattle.slice_lang.specs.Agreeing.{SliceAgrees};
ghost use Rattle.slice_exec.specs.Answering.{AnswersFrom};

use crate::answering::answer_from;
use crate::stop::AnswerStop;
use fact_model::Slice;
use forest_root::Store;
use page_cache::Pages;
use replica_route::pick;
use site_core::Site;
use slice_rows::SliceRows;
use std::alloc::Global;

/// Like `answer`, but from another view: of the covering views with the fewest points, one with the most last attributes bound by
/// equalities.
pub fn answer_picked<'a, T: Site>(
    alloc: Global,
    site: &mut T,
    pages: &mut Pages,
    store: &'a Store,
    slice: &'a Slice,
) -> Result<SliceRows<'a>, AnswerStop>
    requires { SliceAgrees store.now.forest.schema slice.now }
    ensures answers { AnswersFrom T.Site (λ counts view. IsPicked store.now.forest.schema.views counts slice.now view) store.now slice.now
        site.old site.new pages.old pages.new result }
{
    let forest = &store.forest;
    match pick(&forest.schema, &forest.body.counts, slice) {
        Some(choice) => answer_from(alloc, site, pages, store, slice, choice.view),
        None => Err(AnswerStop::NotCovered),
    }
}
