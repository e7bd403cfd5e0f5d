//! Levels, which give each value of an attribute a parent: reading a level, and rolling up rows of a slice to the
//! parents.
#![tactic(auto)]

mod base;
mod child;
mod extending;
mod folding;
mod level;
mod lifting;
mod reading;
mod refusal;

pub use base::base_of;
pub use extending::extend;
pub use folding::fold_up;
pub use level::{Level, LevelList, ParentList};
pub use reading::read_level;
pub use refusal::LevelRefusal;
