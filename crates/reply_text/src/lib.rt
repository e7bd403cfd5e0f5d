//! The texts of replies.
#![tactic(auto)]

mod line;
mod refusal;
mod rows;

pub use line::{already, broken, committed, facts, leveled, pending, picked, plain};
pub use refusal::{
    refused_batch, refused_gap, refused_level, refused_mass, refused_names, refused_query,
    refused_schema, refused_slice,
};
pub use rows::{answered, push_numbers, push_values};
