//! The state of a session between two commands.
ghost use Rattle.std.specs.Prelude.{◌≡◌, option_copied};
ghost use Rattle.cube_state.specs.Visits.{store_of};

use forest_refresh::Refresh;
use forest_root::Store;

/// The state of a session.
#[derive(Drop)]
pub enum State {
    /// The files are open and hold no schema.
    Empty,
    /// The files are open and hold this warehouse.
    Idle(Store),
    /// As `Idle`, and an empty batch is pending.
    Hollow(Store),
    /// The files hold the warehouse without the batch of this refresh, which is pending.
    Pending(Refresh),
}

impl State {
    /// The store of the accepted facts, if a schema is declared.
    pub fn store(&self) -> Option<&Store>
        ensures { option_copied result ≡ store_of self.now }
    {
        match self {
            State::Empty => None,
            State::Idle(store) | State::Hollow(store) => Some(store),
            State::Pending(refresh) => Some(refresh.store()),
        }
    }

    /// Replaces the state by `next` and drops the old one. This is the only function that drops a state.
    pub fn set(&mut self, next: State)
        ensures { self.new ≡ next }
    {
        *self = next;
    }
}
