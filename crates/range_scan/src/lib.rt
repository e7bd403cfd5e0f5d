//! The points of a tree inside a region, from the pages that may hold some.
#![tactic(auto)]

mod children;
mod ends;
mod page;
mod walk;

pub use walk::{SearchStop, search};
