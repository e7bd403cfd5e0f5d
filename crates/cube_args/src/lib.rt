//! The command line of the program: its only option, read by `clap`.
#![tactic(auto)]

mod words;

pub use words::{WordsStop, cache_of};
