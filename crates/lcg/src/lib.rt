//! The generator of numbers: the same start gives the same numbers.
#![tactic(auto)]

mod draw;

pub use draw::Draws;
