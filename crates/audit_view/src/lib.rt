//! A coarser view is compared with the roll-up of a finer one.
#![tactic(auto)]

mod adding;
mod finding;
mod place;
mod rolling;
mod total;

pub use adding::do_add_up;
pub use rolling::is_roll_up;
