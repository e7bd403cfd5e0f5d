//! Where a script comes from.
ghost use Rattle.std.specs.Prelude.{◌≡◌, ◌<◌, ◌≤◌, ◌+◌, ℕ, List, Bool, IsTrue, length, IfOk, OnErr};
ghost use Rattle.site_core.specs.Causes.{HasCause};
ghost use Rattle.site_core.specs.Pull.{Gives, MeetsEnd};

use std::io;

/// Bytes that the system gives, call by call.
pub trait Reader {
    /// Whether the reader reports its bytes. If not, a clause on content says nothing.
    ghost tells: { Bool };

    /// The bytes that are left.
    ghost left: { Self → List ℕ };

    /// How often a read has failed. The count never falls, and stops at the greatest u64.
    ghost faults: { Self → ℕ };

    /// How many reads were asked for.
    ghost reads: { Self → ℕ };

    /// How many reads have met the end.
    ghost ends: { Self → ℕ };

    /// One read: it puts the next bytes at the beginning of `into`, and none only at the end. A read that fails takes
    /// nothing.
    fn read(&mut self, into: &mut [u8]) -> io::Result<usize>
        requires { 0 < length into.old }
        ensures bound { IfOk result (λ count. count ≤ length into.new) }
        ensures bytes { IsTrue tells → IfOk result (λ count. Gives (left self.old) (left self.new) count into.new) }
        ensures failed { IsTrue tells → OnErr result (left self.new ≡ left self.old) }
        ensures cause { HasCause (faults self.old) (faults self.new) result }
        ensures one { reads self.new ≤ reads self.old + 1 }
        ensures end { MeetsEnd (ends self.old) (ends self.new) result };
}
