//! Queries in a form of SQL: the slice that one is answered from, and its answer as text.
#![tactic(auto)]

mod ends;
mod fold;
mod keyed;
mod lists;
mod planned;
mod planning;
mod records;
mod text;

pub use planned::Plan;
pub use planning::plan;
pub use text::sql_text;
