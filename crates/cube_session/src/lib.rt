//! A session: the files are opened, and each command is carried out and its reply emitted.
#![tactic(auto)]

mod answering;
mod auditing;
mod declaring;
mod held;
mod machine;
mod session;

pub use held::Held;
pub use session::Session;
