//! The region of a view in which the points of a slice lie: the codes that its conditions ask for, as the search takes them.
#![tactic(auto)]

mod regions;

pub use regions::region;
