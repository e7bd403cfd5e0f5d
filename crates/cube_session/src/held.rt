//! What a session has between two commands.

use cube_state::State;
use roll_up::LevelList;

/// What a session has between two commands.
#[derive(Drop)]
pub struct Held {
    /// What it has of the files, and of the batch that is pending.
    pub state: State,
    /// The levels that its commands have declared, in their order.
    pub levels: LevelList,
}
