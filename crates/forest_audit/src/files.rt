//! The audit of files.

ghost use Rattle.std.specs.Prelude.{◌≡◌, ◌≤◌, ◌<◌, ◌+◌, ◌^◌, ℕ, IfErr, IfOk, IsTrue, OnOk, length};
ghost use Rattle.site_core.specs.Calls.{Settles, Stays};
ghost use Rattle.site_core.specs.Causes.{HasCauseWhere};
ghost use Rattle.site_core.specs.Disk.{Files};
ghost use Rattle.site_core.specs.Frames.{CallsOnly, LooksOnly};
ghost use Rattle.forest_root.specs.Forest.{pages_of_all};
ghost use Rattle.forest_audit.specs.Audited.{side_file, trees_of};
ghost use Rattle.forest_audit.specs.Cost.{CostsAudit, HaveFewPages};
ghost use Rattle.forest_audit.specs.Reading.{AreRead, AreShaped};
ghost use Rattle.forest_audit.specs.States.{AnswersState};
ghost use Rattle.forest_audit.specs.declared.verdict.Verdict as verdicts;
ghost use Rattle.forest_audit.specs.Verdicts.{IsStoreVerdict, IsVerdict, NamesPage, NamesView};

use crate::trees::read_trees;
use crate::verdict::{AuditStop, Verdict};
use crate::views::{first_wrong, points_of};
use audit_points::TreePoints;
use audit_tree::{TreeAudit, TreeStop};
use forest_open::{OpenStop, open_store};
use forest_root::Store;
use page_entry::PAGE;
use site_core::{SIDES, Site};
use std::alloc::Global;
use text_hash::Seed;

/// Opens the files by their rules, and reads each page of the live side once. Nothing is written, also after an error.
///
/// `Empty` where no slot is raised; `Yes` where all rules are kept; `No` with the place of the first that is broken: a rule of opening; a page
/// that is not the one that the numbers of points and the pages before it fix; a view whose counts do not add up to the facts, or which is not
/// the roll-up of another view that has all its attributes.
pub fn audit<T: Site>(alloc: Global, seed: Seed, site: &mut T) -> Result<Verdict, AuditStop>
    ensures verdict { IsTrue T.tells → IfOk result (IsVerdict (T.disk site.old).files) }
    // And there is no other verdict of these files.
    ensures exact { IsTrue T.tells → (verdict : verdicts.Verdict) → IsVerdict (T.disk site.old).files verdict → IfOk result (λ found. found ≡ verdict) }
    // Files that keep no schema are empty, and files that keep facts are audited.
    ensures states { IsTrue T.tells → IfOk result (AnswersState (T.disk site.old).files) }
    ensures disk { IsTrue T.tells → Settles Stays (T.disk site.old) (T.disk site.new) result }
    ensures calls { CallsOnly T.Site (HasCauseWhere AuditStop.Disk) (1 + 2 ^ 36 + 2 ^ 50) 0 site.old site.new result }
    // One read of the root file, and one for each page of the names that count and of the trees.
    ensures cost { IsTrue T.tells → CostsAudit (T.disk site.old).files (T.reads site.old) (T.reads site.new) }
    ensures writes { T.writes site.new ≡ T.writes site.old }
{
    audit_files(alloc, seed, site)
}

/// The same.
fn audit_files<T: Site>(alloc: Global, seed: Seed, site: &mut T) -> Result<Verdict, AuditStop>
    ensures verdict { IsTrue T.tells → IfOk result (IsVerdict (T.disk site.old).files) }
    ensures disk { IsTrue T.tells → Settles Stays (T.disk site.old) (T.disk site.new) result }
    ensures calls { CallsOnly T.Site (HasCauseWhere AuditStop.Disk) (1 + 2 ^ 36 + 2 ^ 50) 0 site.old site.new result }
    ensures reads { IsTrue T.tells → (names trees : ℕ) → HaveFewPages (T.disk site.old).files names trees
        → T.reads site.new ≤ T.reads site.old + (1 + names + trees) }
    ensures writes { T.writes site.new ≡ T.writes site.old }
{
    match open_store(alloc, seed, site) {
        Ok(None) => Ok(Verdict::Empty),
        Ok(Some(store)) => audit_store(alloc, site, &store),
        Err(OpenStop::Damaged { file, offset }) => Ok(Verdict::No { file, offset }),
        Err(OpenStop::Disk) => Err(AuditStop::Disk),
        Err(OpenStop::Memory) => Err(AuditStop::Memory),
    }
}

/// The same of files that are opened.
fn audit_store<T: Site>(alloc: Global, site: &mut T, store: &Store) -> Result<Verdict, AuditStop>
    ensures verdict { IsTrue T.tells → IfOk result (IsStoreVerdict (T.disk site.old).files store.now.forest.body store.now.forest.schema store.now.dicts) }
    ensures looks { LooksOnly T.Site (HasCauseWhere AuditStop.Disk)
        (pages_of_all store.now.forest.body.format store.now.forest.schema store.now.forest.body.counts (trees_of store.now.forest.schema)) site.old site.new result }
{
    let mut audit = TreeAudit::new(alloc)?;
    let mut trees = Vec::new(alloc);
    match read_trees(alloc, site, store, &mut audit, &mut trees) {
        Ok(()) => agreed(alloc, store, trees.as_slice()),
        Err(TreeStop::Broken { page }) => Ok(no_page(store, page)),
        Err(TreeStop::Disk) => Err(AuditStop::Disk),
        Err(TreeStop::Memory) => Err(AuditStop::Memory),
    }
}

/// The same where all pages keep the rules, and these are the points.
fn agreed(alloc: Global, store: &Store, trees: &[TreePoints]) -> Result<Verdict, AuditStop>
    requires { AreShaped store.now.forest.body store.now.forest.schema (length (trees_of store.now.forest.schema)) trees.now }
    ensures verdict { (files : Files) → AreRead files store.now.forest.body store.now.forest.schema store.now.dicts (length (trees_of store.now.forest.schema)) trees.now
        → IfOk result (IsStoreVerdict files store.now.forest.body store.now.forest.schema store.now.dicts) }
    ensures memory { IfErr result (λ stop. stop ≡ AuditStop.Memory) }
{
    match first_wrong(alloc, store, trees) {
        Ok(None) => Ok(Verdict::Yes),
        Ok(Some(view)) => Ok(no_view(store, trees, view as usize)),
        Err(_) => Err(AuditStop::Memory),
    }
}

/// The place of the page with this number.
fn no_page(store: &Store, page: u64) -> Verdict
    ensures { NamesPage store.now.forest.body page result }
{
    Verdict::No {
        file: SIDES + (store.forest.body.generation % 2) as u32,
        offset: (PAGE as u64).saturating_mul(page),
    }
}

/// The place of the first leaf of a view, or the front of the side where it has none.
fn no_view(store: &Store, trees: &[TreePoints], view: usize) -> Verdict
    requires shaped { AreShaped store.now.forest.body store.now.forest.schema (length (trees_of store.now.forest.schema)) trees.now }
    requires view { view < length store.now.forest.schema.views }
    ensures { (files : Files) → AreRead files store.now.forest.body store.now.forest.schema store.now.dicts (length (trees_of store.now.forest.schema)) trees.now
        → NamesView files store.now.forest.body store.now.forest.schema store.now.dicts view result }
{
    match points_of(store, trees, view).first() {
        Some(page) => no_page(store, page),
        None => no_page(store, 0),
    }
}
