//! The outside world as all higher crates see it: four files and an output that may stop at any moment, and a source of bytes.
//!
//! What a stop may leave is specified only as whole lists of bytes (`specs/Disk.antt`, `specs/Moments.antt`).
#![tactic(auto)]

mod site;
mod source;

pub use site::{Fault, NAMES, ROOT, SIDES, Site};
pub use source::Source;
