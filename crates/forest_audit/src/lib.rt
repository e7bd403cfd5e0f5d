//! Files of any origin are audited: whether they are opened, whether each page of the live side is the one that the numbers of points and the
//! pages before it fix, and whether each coarser view is the roll-up of each finer one.
#![tactic(auto)]

mod files;
mod limits;
mod trees;
mod verdict;
mod views;

pub use files::audit;
pub use verdict::{AuditStop, Verdict};
