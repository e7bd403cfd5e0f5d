//! A run below the top call: the files are opened, and the script is pulled and carried out, one reply for each command.
#![tactic(auto)]

mod exit;
mod pull;
mod script_run;
mod serve;

pub use cube_session::{Held, Session};
pub use cube_state::{State, Stop};
pub use exit::Status;
pub use script_run::attempt;
