//! Trials: scenarios over files in memory, line by line. Each line is printed again, and the answer to each command is printed below
//! it. So a trial that includes its answers passes if it is printed unchanged. `trials/README.md` lists the commands; the program
//! that they run is a parameter.
#![tactic(auto)]

mod block;
mod changed;
mod each;
mod endings;
mod files;
mod print;
mod program;
mod request;
mod rows;
mod scene;
mod show;
mod sweep;
mod table;
mod trial;
mod trouble;
mod words;

pub use program::{Ended, Program};
pub use trial::Trial;
