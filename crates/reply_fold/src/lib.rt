//! Joins the replies of parts to one slice into the reply of the whole: reads them from their text, folds them, and writes the result as
//! `cubetree` writes a reply.
#![tactic(auto)]

mod fault;
mod fields;
mod folding;
mod input;
mod joining;
mod laws;
mod order;
mod pulling;
mod records;
mod replies;
mod rows;
mod taken;
mod text;
mod whole;

pub use fault::Fault;
pub use laws::printed_rows_read_back;
pub use pulling::fold;
pub use whole::fold_input;
