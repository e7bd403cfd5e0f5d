//! The commands for batches, over the state of a session. `load`, `load N` and `generate` add a batch at once; `begin`, `step`, `finish` and
//! `abandon` allow slices in between. `upgrade` rewrites the pages without a batch.
#![tactic(auto)]

mod batch;
mod committing;
mod loading;
mod pending;
mod taking;
mod upgrading;

pub use loading::load;
pub use pending::{abandon, begin, finish, step};
pub use upgrading::upgrade;
