//! Scripts as lists of commands, read from bytes that come in pieces of any size.
#![tactic(auto)]

mod command;
mod count;
mod lines;
mod reader;
mod said;

pub use command::{Block, Command};
pub use lines::Lines;
