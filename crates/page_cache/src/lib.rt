//! Pages of files, lent to who reads them one after another.
#![tactic(auto)]

mod cache;
mod kept;
mod slots;

pub use cache::{Accepted, CacheStop, Pages};
