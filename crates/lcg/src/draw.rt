//! The state of the generator, and draws from it.
ghost use Rattle.std.specs.Prelude.{◌≡◌, ◌<◌, ◌^◌};
ghost use Rattle.lcg.specs.Draw.{next_state, draw};

/// A state of the generator, from which numbers are drawn one after the other. The numbers depend only on the state.
#[derive(Drop)]
pub struct Draws {
    /// The state. Any number may be the first.
    pub state: u64,
}

impl Draws {
    /// Draws a number: replaces the state x by (x * 6364136223846793005 + 1442695040888963407) mod 2^64, and returns
    /// the new state divided by 2^33, rounded down, which is below 2^31.
    pub fn draw(&mut self) -> u64
        ensures value { result ≡ draw self.old.state }
        ensures below { result < 2 ^ 31 }
        ensures after { self.new.state ≡ next_state self.old.state }
    {
        self.state = self
            .state
            .wrapping_mul(6364136223846793005)
            .wrapping_add(1442695040888963407);
        self.state >> 33
    }
}
