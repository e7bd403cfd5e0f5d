//! The search: from the top page down to each child whose box meets the region, left to right.

ghost use Rattle.std.specs.Prelude.{◌≡◌, ◌<◌, ◌≤◌, ◌+◌, ◌^◌, IsTrue, IfOk, IfErr, OnOk, List, [], ◌∷◌, ◌++◌, filter, length, nat_eq};
ghost use Rattle.std.specs.List.{All, IsDistinct};
ghost use Rattle.site_core.specs.Causes.{HasCauseWhere};
ghost use Rattle.site_core.specs.Frames.{LooksOnly};
ghost use Rattle.cube_point.specs.declared.point.Entry as entries;
ghost use Rattle.page_cache.specs.Keeping.{Agrees, HasRoom, Keeps, LiesIn, unkept};
ghost use Rattle.page_fmt.specs.Writing.{IsShape};
ghost use Rattle.range_scan.specs.Meeting.{is_inside};
ghost use Rattle.range_scan.specs.Packed.{HoldsTree, IsUndamaged};
ghost use Rattle.range_scan.specs.Searching.{IsSearched, NamesPage};
ghost use Rattle.range_scan.specs.Steps.{AreAhead, ExplainsStop, IsVisited, stop_at};
ghost use Rattle.range_scan.specs.Visits.{found_in, hits, page_of, top_page, visits};

use crate::page::take_contents;
use cube_point::Region;
use fact_model::Memory;
use page_cache::{CacheStop, Pages};
use page_fmt::{Place, Taker};
use site_core::Site;
use std::alloc::Global;

/// Why the points of a region could not be found.
#[derive(Clone, Copy, Debug, PartialEq, Eq)]
pub enum SearchStop {
    /// A call on the file failed.
    Disk,
    /// The page with this number is short or not lawful, has a child before the tree's first page, or is one more than the
    /// tree has.
    Damaged {
        /// The number of the page in its file.
        page: u64,
    },
    /// Out of memory.
    Memory,
}

/// What is searched for, and where.
#[derive(Clone, Copy)]
pub(crate) struct Query<'a> {
    pub(crate) tree: &'a Place,
    pub(crate) region: &'a Region,
}

/// Gives the points of a tree inside a region to a taker, in the order of its leaves, which in a packed tree is point order. It visits
/// the top page, and each page whose box and all boxes above it meet the region, and reads the pages that are not kept. No file is
/// changed, even after an error; kept pages that are as a read gives them stay so.
///
/// `Damaged` names the first of these pages that is short or not lawful, or has a child before the tree's first page; or the
/// first that is one more than the tree has.
pub fn search<T: Site, G: Taker>(
    alloc: Global,
    site: &mut T,
    pages: &mut Pages,
    tree: &Place,
    region: &Region,
    taker: &mut G,
) -> Result<(), SearchStop>
    requires file { tree.now.file < 4 }
    requires shape { IsShape tree.now.shape }
    requires few { tree.now.first + tree.now.pages ≤ 2 ^ 50 }

    ensures searched { IsTrue T.tells → Agrees (T.disk site.old).files pages.old
        → IsSearched tree.now region.now ((T.disk site.old).files tree.now.file) result }
    ensures gives { IsTrue T.tells → Agrees (T.disk site.old).files pages.old → (start : G) (es : List entries.Entry) → G.was_given start es taker.old
        → OnOk result (G.was_given start (es ++ found_in tree.now region.now ((T.disk site.old).files tree.now.file)
        (visits tree.now region.now ((T.disk site.old).files tree.now.file))) taker.new) }
    ensures visits { IsTrue T.tells → Agrees (T.disk site.old).files pages.old
        → T.reads site.new ≤ T.reads site.old + length (visits tree.now region.now ((T.disk site.old).files tree.now.file)) }

    // The kept pages.
    ensures saves { IsTrue T.tells → Agrees (T.disk site.old).files pages.old
        → HasRoom pages.old tree.now.file (visits tree.now region.now ((T.disk site.old).files tree.now.file))
        → T.reads site.new ≤ T.reads site.old + length (unkept pages.old tree.now.file
        (visits tree.now region.now ((T.disk site.old).files tree.now.file))) }
    ensures keeps { IsTrue T.tells → Agrees (T.disk site.old).files pages.old
        → HasRoom pages.old tree.now.file (visits tree.now region.now ((T.disk site.old).files tree.now.file))
        → OnOk result (Keeps pages.old pages.new tree.now.file (visits tree.now region.now ((T.disk site.old).files tree.now.file))) }
    ensures agrees { IsTrue T.tells → Agrees (T.disk site.old).files pages.old → Agrees (T.disk site.new).files pages.new }

    // A packed tree.
    ensures points { IsTrue T.tells → Agrees (T.disk site.old).files pages.old → (points : List entries.Entry)
        → HoldsTree tree.now ((T.disk site.old).files tree.now.file) points
        → (start : G) (es : List entries.Entry) → G.was_given start es taker.old
        → OnOk result (G.was_given start (es ++ filter (is_inside region.now) points) taker.new) }
    ensures undamaged { IsTrue T.tells → Agrees (T.disk site.old).files pages.old → (points : List entries.Entry)
        → HoldsTree tree.now ((T.disk site.old).files tree.now.file) points → IfErr result IsUndamaged }
    ensures once { IsTrue T.tells → (points : List entries.Entry)
        → HoldsTree tree.now ((T.disk site.old).files tree.now.file) points
        → IsDistinct nat_eq (visits tree.now region.now ((T.disk site.old).files tree.now.file)) }

    // For any bytes in the file.
    ensures page { IfErr result (NamesPage tree.now.first tree.now.pages) }
    ensures lies { LiesIn tree.now.file pages.old → LiesIn tree.now.file pages.new }
    ensures capacity { pages.new.capacity ≡ pages.old.capacity }
    ensures looks { LooksOnly T.Site (HasCauseWhere SearchStop.Disk) tree.now.pages site.old site.new result }
{
    walk(alloc, site, pages, &Query { tree, region }, taker)
}

/// Visits the pages of the search one after another.
fn walk<T: Site, G: Taker>(
    alloc: Global,
    site: &mut T,
    pages: &mut Pages,
    query: &Query<'_>,
    taker: &mut G,
) -> Result<(), SearchStop>
    requires file { query.now.tree.now.file < 4 }
    requires shape { IsShape query.now.tree.now.shape }
    requires few { query.now.tree.now.first + query.now.tree.now.pages ≤ 2 ^ 50 }

    ensures searched { IsTrue T.tells → Agrees (T.disk site.old).files pages.old → IsSearched query.now.tree.now query.now.region.now
        ((T.disk site.old).files query.now.tree.now.file) result }
    ensures gives { IsTrue T.tells → Agrees (T.disk site.old).files pages.old → (start : G) (es : List entries.Entry) → G.was_given start es taker.old
        → OnOk result (G.was_given start (es ++ found_in query.now.tree.now query.now.region.now ((T.disk site.old).files query.now.tree.now.file)
        (visits query.now.tree.now query.now.region.now ((T.disk site.old).files query.now.tree.now.file))) taker.new) }
    ensures visits { IsTrue T.tells → Agrees (T.disk site.old).files pages.old → T.reads site.new ≤ T.reads site.old
        + length (visits query.now.tree.now query.now.region.now ((T.disk site.old).files query.now.tree.now.file)) }
    ensures page { IfErr result (NamesPage query.now.tree.now.first query.now.tree.now.pages) }
    ensures saves { IsTrue T.tells → Agrees (T.disk site.old).files pages.old
        → HasRoom pages.old query.now.tree.now.file (visits query.now.tree.now query.now.region.now ((T.disk site.old).files query.now.tree.now.file))
        → T.reads site.new ≤ T.reads site.old + length (unkept pages.old query.now.tree.now.file
        (visits query.now.tree.now query.now.region.now ((T.disk site.old).files query.now.tree.now.file))) }
    ensures keeps { IsTrue T.tells → Agrees (T.disk site.old).files pages.old
        → HasRoom pages.old query.now.tree.now.file (visits query.now.tree.now query.now.region.now ((T.disk site.old).files query.now.tree.now.file))
        → OnOk result (Keeps pages.old pages.new query.now.tree.now.file (visits query.now.tree.now query.now.region.now ((T.disk site.old).files query.now.tree.now.file))) }
    ensures agrees { IsTrue T.tells → Agrees (T.disk site.old).files pages.old → Agrees (T.disk site.new).files pages.new }
    ensures lies { LiesIn query.now.tree.now.file pages.old → LiesIn query.now.tree.now.file pages.new }
    ensures capacity { pages.new.capacity ≡ pages.old.capacity }
    ensures looks { LooksOnly T.Site (HasCauseWhere SearchStop.Disk) query.now.tree.now.pages site.old site.new result }
{
    // The pages that are still to be visited, the next one last.
    let mut ahead = top_page(alloc, query.tree)?;
    // A packed tree has no more paths than pages.
    for _ in 0..query.tree.pages {
        match ahead.pop() {
            None => return Ok(()),
            Some(number) => visit(site, pages, query, number, &mut ahead, taker)?,
        }
    }
    match ahead.pop() {
        None => Ok(()),
        Some(page) => Err(SearchStop::Damaged { page }),
    }
}

/// Only the top page, if the tree has pages.
fn top_page(alloc: Global, tree: &Place) -> Result<Vec<u64>, Memory>
    requires { tree.now.first + tree.now.pages ≤ 2 ^ 50 }
    ensures { IfOk result (λ ahead. ahead.items ≡ top_page tree.now.first tree.now.pages) }
{
    let mut ahead = Vec::new(alloc);
    if tree.pages > 0 {
        ahead.push(tree.first + (tree.pages - 1))?;
    }
    Ok(ahead)
}

/// Takes the points or the children of the page with this number.
fn visit<T: Site, G: Taker>(
    site: &mut T,
    pages: &mut Pages,
    query: &Query<'_>,
    number: u64,
    ahead: &mut Vec<u64>,
    taker: &mut G,
) -> Result<(), SearchStop>
    requires file { query.now.tree.now.file < 4 }
    requires shape { IsShape query.now.tree.now.shape }
    requires few { query.now.tree.now.first + query.now.tree.now.pages ≤ 2 ^ 50 }
    requires from { query.now.tree.now.first ≤ number }
    requires within { number < query.now.tree.now.first + query.now.tree.now.pages }
    requires ahead { AreAhead query.now.tree.now ahead.old.items }

    ensures visited { IsTrue T.tells → Agrees (T.disk site.old).files pages.old → OnOk result (IsVisited query.now.tree.now query.now.region.now
        ((T.disk site.old).files query.now.tree.now.file) number ahead.old.items ahead.new.items) }
    ensures gives { IsTrue T.tells → Agrees (T.disk site.old).files pages.old → (start : G) (es : List entries.Entry) → G.was_given start es taker.old
        → OnOk result (G.was_given start (es ++ hits query.now.region.now (page_of query.now.tree.now.shape
        ((T.disk site.old).files query.now.tree.now.file) number)) taker.new) }
    ensures stop { IsTrue T.tells → Agrees (T.disk site.old).files pages.old
        → IfErr result (ExplainsStop query.now.tree.now ((T.disk site.old).files query.now.tree.now.file) number) }
    ensures ahead { OnOk result (AreAhead query.now.tree.now ahead.new.items) }
    ensures names { IfErr result (NamesPage number 1) }
    ensures agrees { IsTrue T.tells → Agrees (T.disk site.old).files pages.old → Agrees (T.disk site.new).files pages.new }
    ensures saves { T.reads site.new ≤ T.reads site.old + length (unkept pages.old query.now.tree.now.file (number ∷ [])) }
    ensures keeps { HasRoom pages.old query.now.tree.now.file (number ∷ []) → OnOk result (Keeps pages.old pages.new query.now.tree.now.file (number ∷ [])) }
    ensures grows { length pages.new.kept ≤ length pages.old.kept + length (unkept pages.old query.now.tree.now.file (number ∷ [])) }
    ensures lies { LiesIn query.now.tree.now.file pages.old → LiesIn query.now.tree.now.file pages.new }
    ensures capacity { pages.new.capacity ≡ pages.old.capacity }
    ensures looks { LooksOnly T.Site (HasCauseWhere SearchStop.Disk) 1 site.old site.new result }
{
    match pages.page(site, &query.tree.shape, query.tree.file, number) {
        Ok(page) => take_contents(page.bytes, page.head, query, number, ahead, taker),
        Err(stop) => Err(stop_at(stop, number)),
    }
}

/// The search's error for a page that the cache does not give.
fn stop_at(stop: CacheStop, number: u64) -> SearchStop
    ensures { result ≡ stop_at number stop }
{
    match stop {
        CacheStop::Disk => SearchStop::Disk,
        CacheStop::Short | CacheStop::Unlawful => SearchStop::Damaged { page: number },
        CacheStop::Memory => SearchStop::Memory,
    }
}

impl From<Memory> for SearchStop {
    ghost use Rattle.range_scan.specs.declared.walk.SearchStop.TheVariants as stops;

    ghost from_gives = { λ _ stop. stop ≡ stops.Memory };

    fn from(_memory: Memory) -> SearchStop {
        SearchStop::Memory
    }
}
