//! Which view stands in which tree: at most one view of each arity in a tree, in as few trees as can be.
#![tactic(auto)]

mod mapping;
mod selection;

pub use mapping::{Mapping, Tree, TreeList};
pub use selection::select;
