//! The points of a tree that was read, kept in the leaves that held them.
#![tactic(auto)]

mod tree;
mod view;

pub use tree::TreePoints;
pub use view::ViewPoints;
