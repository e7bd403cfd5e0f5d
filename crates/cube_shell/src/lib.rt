//! The warehouse as one call: a script in, one reply out for each command.
#![tactic(auto)]

mod top_call;

pub use cube_run::{Held, Session, State, Status, Stop};
pub use top_call::{run, run_within};
