//! The language of queries, a form of SQL: reading a text.
#![tactic(auto)]

mod conditions;
mod draft;
mod front;
mod items;
mod names;
mod query;
mod quotes;
mod read;
mod refusal;
mod steps;
mod token;
mod tokens;

pub use query::{Item, ItemList, Operand, OperandList, Query, Sign, Test, TestList};
pub use read::read_sql;
pub use refusal::SqlRefusal;
