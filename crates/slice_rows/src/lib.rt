//! The rows of a slice, from the points of a view: joined by the values of their keys, in the order of these, and made, lent or written.
#![tactic(auto)]

mod column_sums;
mod group_rows;
mod key_groups;
mod key_order;
mod keys;
mod lent_row;
mod made_row;
mod order_index;
mod rank_sort;
mod rows;
mod value_ranks;

pub use group_rows::rows_of;
pub use rows::SliceRows;
