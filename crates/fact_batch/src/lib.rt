//! The facts of a batch in flat arrays, and rows of one width.
#![tactic(auto)]

mod batch;
mod builder;
mod rows;
mod values;

pub use batch::Batch;
pub use builder::BatchBuilder;
pub use rows::FlatRows;
pub use values::{LentValue, Slot, Values};
