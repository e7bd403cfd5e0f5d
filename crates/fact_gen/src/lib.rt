//! Facts made from a number, for trials with many facts.
#![tactic(auto)]

mod facts;
mod measures;
mod values;

pub use facts::generate;
