//! The points of a view, joined by their grouped coordinates as a search gives them, and held small.
#![tactic(auto)]

mod column;
mod columns;
mod group_hints;
mod grouped_place;
mod groups;
mod place_index;
mod place_order;
mod point_list;
mod stop;

pub use groups::Groups;
pub use point_list::FlatPoints;
pub use stop::RowsStop;
