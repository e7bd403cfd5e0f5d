//! Records of comma-separated fields: what `csv` reads from a block of bytes, and what it writes for a row.
#![tactic(auto)]

mod records;
mod rows;

pub use records::{block_reader, read_record};
pub use rows::RowWriter;
