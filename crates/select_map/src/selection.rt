//! The selection of trees.
ghost use Rattle.std.specs.Prelude.{◌≡◌, ◌≤◌, ◌<◌, IfOk, count_by, length, max};
ghost use Rattle.cube_schema.specs.Lawful.{IsSchema};
ghost use Rattle.select_map.specs.Views.{has_arity, selected, tree_at, tree_count, view_in, views_in, last_from};
ghost use Rattle.select_map.specs.Selection.{IsSelection};

use crate::mapping::{ARITIES, Mapping, Tree, TreeList};
use cube_schema::{Schema, ViewList};
use fact_model::Memory;
use std::alloc::Global;

/// Puts each view into the tree whose number is the count of views of its arity before it.
pub fn select(alloc: Global, schema: &Schema) -> Result<Mapping, Memory>
    requires { IsSchema schema.now }
    ensures exact { IfOk result (λ mapping. mapping ≡ selected schema.now.views) }
    ensures lawful { IfOk result (IsSelection schema.now.views) }
{
    trees_of(alloc, &schema.views)
}

fn trees_of(alloc: Global, views: &ViewList) -> Result<Mapping, Memory>
    requires { length views.now ≤ 32 }
    ensures { IfOk result (λ mapping. mapping ≡ selected views.now) }
{
    let mut trees = TreeList::new(alloc);
    for tree in 0..tree_count(views) {
        trees.push(tree_at(views, tree))?;
    }
    Ok(Mapping { trees })
}

/// The most views that share an arity.
fn tree_count(views: &ViewList) -> usize
    ensures { result ≡ tree_count views.now }
{
    let mut most = 0;
    for arity in 0..ARITIES {
        most = most.max(count_of(views, arity));
    }
    most
}

fn count_of(views: &ViewList, arity: usize) -> usize
    ensures { result ≡ count_by (has_arity arity) views.now }
{
    views
        .as_slice()
        .iter()
        .filter(|view| view.as_slice().len() == arity)
        .count()
}

/// The tree with this number.
fn tree_at(views: &ViewList, tree: usize) -> Tree
    requires { length views.now ≤ 32 }
    ensures { result ≡ tree_at views.now tree }
{
    let view_of = views_in(views, tree);
    Tree {
        dims: last_view(&view_of),
        view_of,
    }
}

fn views_in(views: &ViewList, tree: usize) -> [Option<u32>; 9]
    requires { length views.now ≤ 32 }
    ensures { result ≡ views_in views.now tree }
{
    let mut view_of = [None; ARITIES];
    for arity in 0..ARITIES {
        view_of[arity] = view_in(views, tree, arity);
    }
    view_of
}

/// The view of this arity that has so many views of its arity before it.
fn view_in(views: &ViewList, tree: usize, arity: usize) -> Option<u32>
    requires { length views.now ≤ 32 }
    ensures { result ≡ view_in views.now tree arity }
{
    let mut number = 0;
    let mut before = 0;
    for view in views.as_slice() {
        if view.as_slice().len() == arity {
            if before == tree {
                return Some(number);
            }
            before += 1;
        }
        number += 1;
    }
    None
}

/// The greatest arity of a view.
fn last_view(view_of: &[Option<u32>; 9]) -> u8
    ensures { result ≡ last_from 0 0 view_of.now }
{
    let mut last = 0;
    for arity in 0..9u8 {
        if view_of[arity as usize].is_some() {
            last = arity;
        }
    }
    last
}
