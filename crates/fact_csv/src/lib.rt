//! The rows of a batch as facts, or the first fault.
#![tactic(auto)]

mod batch;
mod field;
mod refusal;
mod row;

pub use batch::{MOST_ROWS, read_batch};
pub use refusal::RowRefusal;
