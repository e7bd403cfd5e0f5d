//! The current folder, standard output and standard input, in single calls of std.
#![tactic(auto)]

mod current_folder;
mod data_file;
mod faults;
mod open_files;
mod standard_input;
#[cfg(test)]
mod tests;

pub use current_folder::CurrentFolder;
pub use standard_input::StandardInput;
