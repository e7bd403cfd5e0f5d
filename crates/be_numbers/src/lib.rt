//! The bytes of numbers at a place of a list of bytes, and the laws of formats of a fixed size.
#![tactic(auto)]

mod number;

pub use number::{put_i128, put_u16, put_u32, put_u64, take_i128, take_u16, take_u32, take_u64};
