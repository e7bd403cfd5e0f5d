//! The trees of the live side, each read and compared with what its numbers of points fix.

ghost use Rattle.std.specs.Prelude.{◌≡◌, ◌≤◌, ◌<◌, ◌++◌, ℕ, [], ◌∷◌, IfErr, IfOk, IsTrue, OnOk, get_or, length, slice_index};
ghost use Rattle.site_core.specs.Causes.{HasCauseWhere};
ghost use Rattle.site_core.specs.Frames.{LooksOnly};
ghost use Rattle.attr_dict.specs.Book.{names_at};
ghost use Rattle.forest_root.specs.Forest.{pages_of, pages_of_all};
ghost use Rattle.select_map.specs.Selection.{tree_of};
ghost use Rattle.audit_tree.specs.Kept.{AreViewsOf};
ghost use Rattle.forest_audit.specs.Audited.{tree_place, trees_of};
ghost use Rattle.forest_audit.specs.Reading.{AreRead, AreShaped, IsAdded, IsReadTree, TellsTree, TellsTrees};

use crate::limits::tree_limits;
use attr_dict::Lengths;
use audit_points::TreePoints;
use audit_tree::{TreeAudit, TreeStop};
use forest_root::Store;
use site_core::Site;
use std::alloc::Global;

/// Reads each page of each tree once, in ascending order, and keeps the points. `Ok` where all pages keep the rules.
///
/// `Broken` names the first page that breaks a rule. No file is changed, also after an error.
pub(crate) fn read_trees<T: Site>(
    alloc: Global,
    site: &mut T,
    store: &Store,
    audit: &mut TreeAudit,
    trees: &mut Vec<TreePoints>,
) -> Result<(), TreeStop>
    requires { trees.old.items ≡ [] }
    ensures read { IsTrue T.tells → OnOk result (AreRead (T.disk site.old).files store.now.forest.body store.now.forest.schema store.now.dicts
        (length (trees_of store.now.forest.schema)) trees.new.items) }
    ensures broken { IsTrue T.tells → IfErr result (TellsTrees (T.disk site.old).files store.now.forest.body store.now.forest.schema store.now.dicts) }
    ensures shaped { OnOk result (AreShaped store.now.forest.body store.now.forest.schema (length (trees_of store.now.forest.schema)) trees.new.items) }
    ensures looks { LooksOnly T.Site (HasCauseWhere TreeStop.Disk)
        (pages_of_all store.now.forest.body.format store.now.forest.schema store.now.forest.body.counts (trees_of store.now.forest.schema)) site.old site.new result }
{
    let lengths = store.dicts.lengths();
    for tree in 0..store.forest.mapping.trees.as_slice().len() {
        match add_tree(alloc, site, store, &lengths, tree, audit, trees) {
            Ok(()) => {}
            Err(stop) => return Err(stop),
        }
    }
    Ok(())
}

/// The same of one tree, behind those before it.
fn add_tree<T: Site>(
    alloc: Global,
    site: &mut T,
    store: &Store,
    lengths: &Lengths,
    tree: usize,
    audit: &mut TreeAudit,
    trees: &mut Vec<TreePoints>,
) -> Result<(), TreeStop>
    requires tree { tree < length store.now.forest.mapping.trees }
    requires lengths { (a : ℕ) → slice_index lengths.now.at a ≡ length (names_at store.now.dicts a) }
    ensures read { IsTrue T.tells → OnOk result (IsAdded trees.old.items trees.new.items (IsReadTree (T.disk site.old).files store.now.forest.body store.now.forest.schema store.now.dicts tree)) }
    ensures broken { IsTrue T.tells → IfErr result (TellsTree (T.disk site.old).files store.now.forest.body store.now.forest.schema store.now.dicts tree) }
    ensures shaped { OnOk result (IsAdded trees.old.items trees.new.items (AreViewsOf (tree_place store.now.forest.body store.now.forest.schema tree).shape)) }
    ensures looks { LooksOnly T.Site (HasCauseWhere TreeStop.Disk) (tree_place store.now.forest.body store.now.forest.schema tree).pages site.old site.new result }
{
    match read_tree(alloc, site, store, lengths, tree, audit) {
        Ok(points) => pushed(trees, points),
        Err(stop) => Err(stop),
    }
}

/// Puts the points of a tree behind those of others.
fn pushed(trees: &mut Vec<TreePoints>, points: TreePoints) -> Result<(), TreeStop>
    ensures added { OnOk result (trees.new.items ≡ trees.old.items ++ points ∷ []) }
    ensures memory { IfErr result (λ stop. stop ≡ TreeStop.Memory) }
{
    match trees.push(points) {
        Ok(()) => Ok(()),
        Err(_) => Err(TreeStop::Memory),
    }
}

/// Reads each page of one tree once, and keeps its points.
fn read_tree<T: Site>(
    alloc: Global,
    site: &mut T,
    store: &Store,
    lengths: &Lengths,
    tree: usize,
    audit: &mut TreeAudit,
) -> Result<TreePoints, TreeStop>
    requires tree { tree < length store.now.forest.mapping.trees }
    requires lengths { (a : ℕ) → slice_index lengths.now.at a ≡ length (names_at store.now.dicts a) }
    ensures read { IsTrue T.tells → IfOk result (IsReadTree (T.disk site.old).files store.now.forest.body store.now.forest.schema store.now.dicts tree) }
    ensures broken { IsTrue T.tells → IfErr result (TellsTree (T.disk site.old).files store.now.forest.body store.now.forest.schema store.now.dicts tree) }
    ensures shaped { IfOk result (AreViewsOf (tree_place store.now.forest.body store.now.forest.schema tree).shape) }
    ensures looks { LooksOnly T.Site (HasCauseWhere TreeStop.Disk) (tree_place store.now.forest.body store.now.forest.schema tree).pages site.old site.new result }
{
    let place = store.forest.place(tree as u32);
    let counts = store.forest.counts_at(tree as u32);
    let limits = tree_limits(
        &store.forest.schema,
        lengths,
        &store.forest.mapping.trees.as_slice()[tree],
    );
    audit.audit(alloc, site, &place, &counts, &limits)
}
