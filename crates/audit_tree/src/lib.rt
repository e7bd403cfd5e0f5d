//! A tree is gone through page by page: each is compared with what the numbers of points and the pages before it fix.
#![tactic(auto)]

mod leaf;
mod stop;
mod tree;

pub use stop::TreeStop;
pub use tree::{Limits, TreeAudit};
