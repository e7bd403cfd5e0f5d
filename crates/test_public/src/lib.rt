//! Tests of the public functions that no run of the program calls, each with ample memory.
#![tactic(auto)]

#[cfg(test)]
mod tests;
