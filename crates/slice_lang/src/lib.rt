//! The slice language: reading the text of a slice by a schema, and writing it.
#![tactic(auto)]

mod columns;
mod conds;
mod names;
mod parts;
mod read;
mod refusal;
mod values;
mod write;

pub use read::read_slice;
pub use refusal::SliceRefusal;
pub use values::read_coordinate;
pub use write::write_slice;
