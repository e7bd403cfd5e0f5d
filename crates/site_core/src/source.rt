//! A source of bytes.
ghost use Rattle.std.specs.Prelude.{◌≡◌, ◌<◌, ◌≤◌, ◌+◌, ℕ, List, Bool, IsTrue, length, IfOk, OnErr};
ghost use Rattle.site_core.specs.Causes.{HasCause};
ghost use Rattle.site_core.specs.Pull.{Gives, MeetsEnd};

use crate::Fault;

/// Bytes in pieces, from first to last.
pub trait Source {
    /// Whether the source reports its bytes. If it does not, clauses about content say nothing; bounds and counts always hold.
    ghost tells: { Bool };

    /// The remaining bytes.
    ghost left: { Self → List ℕ };

    /// The number of failed pulls. It never falls, and it stops at the greatest `u64`.
    ghost faults: { Self → ℕ };

    /// The number of pulls requested.
    ghost pulls: { Self → ℕ };

    /// The number of pulls that met the end.
    ghost ends: { Self → ℕ };

    /// Fills the front of `into` and returns the number of bytes: at least one, or zero at the end of the source.
    /// A failed pull takes nothing.
    fn pull(&mut self, into: &mut [u8]) -> Result<usize, Fault>
        requires { 0 < length into.old }
        ensures bound { IfOk result (λ count. count ≤ length into.new) }
        ensures bytes { IsTrue tells → IfOk result (λ count. Gives (left self.old) (left self.new) count into.new) }
        ensures failed { IsTrue tells → OnErr result (left self.new ≡ left self.old) }
        ensures cause { HasCause (faults self.old) (faults self.new) result }
        ensures one { pulls self.new ≤ pulls self.old + 1 }
        ensures end { MeetsEnd (ends self.old) (ends self.new) result };
}
