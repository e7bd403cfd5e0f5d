//! The state of a session between two commands, the world that it represents, what it means to carry out a command, and why a session stops.
#![tactic(auto)]

mod state;
mod stop;

pub use state::State;
pub use stop::Stop;
