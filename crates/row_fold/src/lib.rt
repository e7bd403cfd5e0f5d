//! Folding rows: rows that agree in a part of the key are joined. Counts and sums are added, and of least and greatest numbers the least
//! and the greatest are kept. Folding the rows of facts gives the same as grouping the facts.
#![tactic(auto)]

mod fold;
mod joining;
mod laws;
mod lending;
mod lent;

pub use fold::RowFold;
pub use joining::join_numbers;
pub use laws::{lists_of_facts_fold, lists_of_facts_join, rows_of_facts_add, rows_of_facts_fold};
pub use lending::{LentRow, LentRows};
pub use lent::LentValue;
