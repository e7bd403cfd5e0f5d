//! The plain machine: what each command replies and what is known behind it, what files keep of that, and what a stop among commands may
//! leave. Definitions and theorems, and where the facts of a batch come from.
#![tactic(auto)]

mod batch_source;

pub use batch_source::BatchSource;
