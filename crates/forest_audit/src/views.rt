//! Whether the views agree with one another.

ghost use Rattle.std.specs.Prelude.{◌≡◌, ◌≢◌, ◌↔◌, ◌≤◌, ◌<◌, ℕ, IfNone, IfOk, IfSome, IsTrue, length};
ghost use Rattle.site_core.specs.Disk.{Files};
ghost use Rattle.forest_audit.specs.Audited.{HasAll, ViewAgrees, tree_place, trees_of, view_of};
ghost use Rattle.forest_audit.specs.Reading.{AreRead, AreShaped};
ghost use Rattle.forest_audit.specs.Agreeing.{FindsWrong, HasDims, IsFirstAt, StandsNowhere, IsViewRead, Pairs};

use audit_points::{TreePoints, ViewPoints};
use audit_view::{do_add_up, is_roll_up};
use fact_model::Memory;
use forest_root::Store;
use std::alloc::Global;

/// The number of the first view that does not agree with the facts or with another view, in order of declaration; `None` where all do.
pub(crate) fn first_wrong(
    alloc: Global,
    store: &Store,
    trees: &[TreePoints],
) -> Result<Option<u32>, Memory>
    requires { AreShaped store.now.forest.body store.now.forest.schema (length (trees_of store.now.forest.schema)) trees.now }
    ensures wrong { (files : Files) → AreRead files store.now.forest.body store.now.forest.schema store.now.dicts (length (trees_of store.now.forest.schema)) trees.now
        → IfOk result (FindsWrong files store.now.forest.body store.now.forest.schema store.now.dicts) }
    ensures inside { IfOk result (λ found. IfSome found (λ view. view < length store.now.forest.schema.views)) }
{
    for view in 0..store.forest.schema.views.as_slice().len() {
        if !does_agree(alloc, store, trees, view)? {
            return Ok(Some(view as u32));
        }
    }
    Ok(None)
}

/// Whether a view's counts add up to the facts, and it is the roll-up of each other view that has all its attributes.
fn does_agree(
    alloc: Global,
    store: &Store,
    trees: &[TreePoints],
    view: usize,
) -> Result<bool, Memory>
    requires shaped { AreShaped store.now.forest.body store.now.forest.schema (length (trees_of store.now.forest.schema)) trees.now }
    requires view { view < length store.now.forest.schema.views }
    ensures { (files : Files) → AreRead files store.now.forest.body store.now.forest.schema store.now.dicts (length (trees_of store.now.forest.schema)) trees.now
        → IfOk result (λ is. IsTrue is ↔ ViewAgrees files store.now.forest.body store.now.forest.schema store.now.dicts view) }
{
    if !do_add_up(points_of(store, trees, view), store.forest.body.facts) {
        return Ok(false);
    }
    for other in 0..store.forest.schema.views.as_slice().len() {
        if !rolls_up(alloc, store, trees, other, view)? {
            return Ok(false);
        }
    }
    Ok(true)
}

/// Whether the second view is the roll-up of the first, where that is another one and has all its attributes.
fn rolls_up(
    alloc: Global,
    store: &Store,
    trees: &[TreePoints],
    fine: usize,
    coarse: usize,
) -> Result<bool, Memory>
    requires shaped { AreShaped store.now.forest.body store.now.forest.schema (length (trees_of store.now.forest.schema)) trees.now }
    requires fine { fine < length store.now.forest.schema.views }
    requires coarse { coarse < length store.now.forest.schema.views }
    ensures { (files : Files) → AreRead files store.now.forest.body store.now.forest.schema store.now.dicts (length (trees_of store.now.forest.schema)) trees.now
        → IfOk result (λ is. IsTrue is ↔ Pairs files store.now.forest.body store.now.forest.schema store.now.dicts fine coarse) }
{
    if fine == coarse {
        return Ok(true);
    }
    let views = store.forest.schema.views.as_slice();
    let found = dimensions(alloc, views[fine].as_slice(), views[coarse].as_slice())?;
    match found {
        Some(dims) => is_roll_up(
            alloc,
            points_of(store, trees, fine),
            points_of(store, trees, coarse),
            dims.as_slice(),
        ),
        None => Ok(true),
    }
}

/// The points of a view.
pub(crate) fn points_of<'a>(store: &Store, trees: &'a [TreePoints], view: usize) -> &'a ViewPoints
    requires shaped { AreShaped store.now.forest.body store.now.forest.schema (length (trees_of store.now.forest.schema)) trees.now }
    requires view { view < length store.now.forest.schema.views }
    ensures read { (files : Files) → AreRead files store.now.forest.body store.now.forest.schema store.now.dicts (length (trees_of store.now.forest.schema)) trees.now
        → IsViewRead files store.now.forest.body store.now.forest.schema store.now.dicts view result.now }
    ensures measures { result.now.shape.measures ≡ length store.now.forest.schema.measures }
{
    let tree = store.forest.mapping.tree_of(view as u32);
    let arity = store.forest.schema.views.as_slice()[view].as_slice().len();
    trees[tree as usize].view(arity)
}

/// The dimensions of the finer view in which the attributes of the coarser one stand; `None` where it has not all of them.
fn dimensions(alloc: Global, fine: &[u32], coarse: &[u32]) -> Result<Option<Vec<usize>>, Memory>
    requires fine { length fine.now ≤ 8 }
    requires coarse { length coarse.now ≤ 8 }
    ensures found { IfOk result (λ found. IfSome found (λ dims. HasDims fine.now coarse.now dims.items)) }
    ensures none { IfOk result (λ found. IfNone found (HasAll fine.now coarse.now → ⊥)) }
{
    let mut dims = Vec::new(alloc);
    for place in 0..coarse.len() {
        match position(fine, coarse[place]) {
            Some(dimension) => dims.push(dimension)?,
            None => return Ok(None),
        }
    }
    Ok(Some(dims))
}

/// The first place of an attribute in a view.
fn position(view: &[u32], attr: u32) -> Option<usize>
    ensures first { IfSome result (IsFirstAt view.now attr) }
    ensures none { IfNone result (StandsNowhere view.now attr) }
{
    for place in 0..view.len() {
        if view[place] == attr {
            return Some(place);
        }
    }
    None
}
