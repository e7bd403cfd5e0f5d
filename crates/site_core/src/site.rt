//! Four files and an output: what a read gives, and what a stop may leave.
ghost use Rattle.std.specs.Prelude.{◌≡◌, ◌<◌, ◌≤◌, ◌+◌, ◌⊎◌, ℕ, List, Bool, IsTrue, length, ◌++◌, IfOk, OnOk};
ghost use Rattle.site_core.specs.Causes.{HasCause, Rose};
ghost use Rattle.site_core.specs.Disk.{Files, Disk, with_file, overwritten};
ghost use Rattle.site_core.specs.Moments.{IsStable};
ghost use Rattle.site_core.specs.Calls.{Rests, Stays, Settles, Fills, Writes, Emits};

/// The number of the root file.
pub const ROOT: u32 = 0;

/// The number of the names file.
pub const NAMES: u32 = 1;

/// The number of the first side file; the second has the next number.
pub const SIDES: u32 = 2;

/// A call failed. The count of such faults of the object called has risen.
#[derive(Clone, Copy, Debug, PartialEq, Eq)]
pub struct Fault;

/// Four files, numbered 0 to 3, and an output.
///
/// A stop may come between two calls or inside one. What it may leave is a moment: the output so far, and four files. A
/// write may leave any bytes in its range and past the old end, until a sync succeeds; bytes outside the range stay.
pub trait Site {
    /// Whether the site reports its files, its output and its moments. If it does not, clauses about content say
    /// nothing; bounds and counts always hold.
    ghost tells: { Bool };

    /// The files as a read gives them, the output, and what a stop may leave.
    ghost disk: { Self → Disk };

    /// The number of failed calls on the files. Like the three counts below, it never falls, and it stops at the greatest
    /// `u64`.
    ghost disk_faults: { Self → ℕ };

    /// The number of failed calls on the output.
    ghost told_faults: { Self → ℕ };

    /// The number of reads requested.
    ghost reads: { Self → ℕ };

    /// The number of writes requested.
    ghost writes: { Self → ℕ };

    /// The length of a file in bytes. Nothing changes, even after a fault.
    fn length(&mut self, file: u32) -> Result<u64, Fault>
        requires { file < 4 }
        ensures answer { IsTrue tells → IfOk result (λ count. count ≡ length ((disk self.old).files file)) }
        ensures disk { IsTrue tells → Rests (disk self.old) (disk self.new) }
        ensures cause { HasCause (disk_faults self.old) (disk_faults self.new) result }
        ensures told_faults { told_faults self.new ≡ told_faults self.old }
        ensures reads { reads self.new ≡ reads self.old }
        ensures writes { writes self.new ≡ writes self.old };

    /// Reads bytes of a file at offset `at` into `into`, as many as it holds or as the file has from there, and returns
    /// their number. No file changes, even after a fault.
    fn read(&mut self, file: u32, at: u64, into: &mut [u8]) -> Result<usize, Fault>
        requires file { file < 4 }
        requires some { 0 < length into.old }
        requires few { length into.old ≤ 4096 }
        ensures bound { IfOk result (λ count. count ≤ length into.new) }
        ensures answer { IsTrue tells → IfOk result (λ count. Fills ((disk self.old).files file) at count into.new) }
        ensures disk { IsTrue tells → Rests (disk self.old) (disk self.new) }
        ensures cause { HasCause (disk_faults self.old) (disk_faults self.new) result }
        ensures told_faults { told_faults self.new ≡ told_faults self.old }
        ensures reads { reads self.old ≤ reads self.new }
        ensures counted { Rose (reads self.old) (reads self.new) }
        ensures one { reads self.new ≤ reads self.old + 1 }
        ensures writes { writes self.new ≡ writes self.old };

    /// Writes bytes at offset `at` of a file, and extends the file if they pass its end. After a fault any part of them
    /// may have been written, and a read of the range may give anything.
    fn write(&mut self, file: u32, at: u64, bytes: &[u8]) -> Result<(), Fault>
        requires file { file < 4 }
        requires place { IsTrue tells → at ≤ length ((disk self.old).files file) }
        requires some { 0 < length bytes.now }
        ensures written { IsTrue tells → OnOk result ((disk self.new).files
            ≡ with_file (disk self.old).files file (overwritten ((disk self.old).files file) at bytes.now)) }
        ensures disk { IsTrue tells → Writes file at bytes.now (disk self.old) (disk self.new) }
        ensures cause { HasCause (disk_faults self.old) (disk_faults self.new) result }
        ensures told_faults { told_faults self.new ≡ told_faults self.old }
        ensures reads { reads self.new ≡ reads self.old }
        ensures writes { writes self.old ≤ writes self.new }
        ensures counted { Rose (writes self.old) (writes self.new) }
        ensures one { writes self.new ≤ writes self.old + 1 };

    /// Makes everything written stable: a stop right afterwards leaves what a read gives. After a fault nothing has
    /// become stable, and a read may give anything that a stop may leave: a system may drop what it could not write.
    fn sync(&mut self) -> Result<(), Fault>
        ensures stable { IsTrue tells → OnOk result (IsStable (disk self.new)) }
        ensures disk { IsTrue tells → Settles Stays (disk self.old) (disk self.new) result }
        ensures cause { HasCause (disk_faults self.old) (disk_faults self.new) result }
        ensures told_faults { told_faults self.new ≡ told_faults self.old }
        ensures reads { reads self.new ≡ reads self.old }
        ensures writes { writes self.new ≡ writes self.old };

    /// Appends bytes to the output. After a fault, or a stop inside the call, the first of the bytes may have been output.
    fn emit(&mut self, bytes: &[u8]) -> Result<(), Fault>
        ensures told { IsTrue tells → OnOk result ((disk self.new).told ≡ (disk self.old).told ++ bytes.now) }
        ensures disk { IsTrue tells → Emits bytes.now (disk self.old) (disk self.new) }
        ensures cause { HasCause (told_faults self.old) (told_faults self.new) result }
        ensures disk_faults { disk_faults self.new ≡ disk_faults self.old }
        ensures reads { reads self.new ≡ reads self.old }
        ensures writes { writes self.new ≡ writes self.old };

    /// What a read gives now is among what a stop now may leave.
    ghost read_now: { (site : Self) → IsTrue tells → (disk site).may_leave (disk site).files };

    /// This moment is among those since an earlier one.
    ghost counts_now: { (site : Self) (t : ℕ) (files : Files) → IsTrue tells → t ≤ (disk site).clock
        → (disk site).may_leave files → (disk site).left_since t (disk site).told files };

    /// There is no other moment since this one.
    ghost only_now: { (site : Self) (told : List ℕ) (files : Files) → IsTrue tells
        → (disk site).left_since (disk site).clock told files → (told ≡ (disk site).told) × (disk site).may_leave files };
}
