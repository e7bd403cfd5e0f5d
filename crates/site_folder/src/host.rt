//! Where the files lie and the replies go.
ghost use Rattle.std.specs.Prelude.{◌≡◌, ◌≢◌, ◌<◌, ◌≤◌, ◌+◌, ◌^◌, ◌++◌, ℕ, List, Bool, IsTrue, length, take, IfOk, IfErr, OnOk};
ghost use Rattle.std.specs.IoError.{error_kind};
ghost use Rattle.site_core.specs.Calls.{Rests, Settles, Stays, Writes, Emits};
ghost use Rattle.site_core.specs.Causes.{Rose};
ghost use Rattle.site_core.specs.Disk.{Files, Disk, with_file, overwritten};
ghost use Rattle.site_core.specs.Moments.{IsStable};
ghost use Rattle.site_folder.specs.Faults.{FaultsOf};
ghost use Rattle.site_folder.specs.Ledger.{Asks, IsAllSynced, Keeps, KeepsFiles, KeepsOthers, Ledger};
ghost use Rattle.site_folder.specs.Reads.{ReadsAt};

use std::io;
use std::io::ErrorKind;

/// Four files of a folder, numbered 0 to 3, and an output, with one method for each call.
///
/// Each method is one call of the system: it may do only a part of what was asked, and returns how much.
pub trait Host {
    /// Whether the host reports its files, its output and its moments. If not, a clause on content says nothing.
    ghost tells: { Bool };

    /// The files as a read gives them, the bytes written to the output, and what a stop may leave.
    ghost disk: { Self → Disk };

    /// What is open, what is synced, and how often a sync was asked for.
    ghost ledger: { Self → Ledger };

    /// How often a call on the files has failed, not counting files that are not there. This count and the next one never fall, and stop
    /// at the greatest u64.
    ghost disk_faults: { Self → ℕ };

    /// How often the output has failed.
    ghost told_faults: { Self → ℕ };

    /// Opens a file that is there, unless it is open. If it is not there, the error is `NotFound`; then it has no bytes, and nothing
    /// that is not synced.
    fn open(&mut self, file: u32) -> io::Result<()>
        requires { file < 4 }
        ensures opened { OnOk result (IsTrue ((ledger self.new).opened file)) }
        ensures absent { IsTrue tells → IfErr result (λ error. error_kind error ≡ ErrorKind.NotFound
            → length ((disk self.old).files file) ≡ 0) }
        ensures nothing { IfErr result (λ error. error_kind error ≡ ErrorKind.NotFound → IsTrue ((ledger self.new).synced file)) }
        ensures keeps { Keeps (ledger self.old) (ledger self.new) }
        ensures cause { IfErr result (λ error. error_kind error ≢ ErrorKind.NotFound → Rose (disk_faults self.old) (disk_faults self.new)) }
        ensures none { IfErr result (λ error. error_kind error ≡ ErrorKind.NotFound → disk_faults self.new ≡ disk_faults self.old) }
        ensures ok { OnOk result (disk_faults self.new ≡ disk_faults self.old) }
        ensures later { disk_faults self.old ≤ disk_faults self.new }
        ensures once { disk_faults self.new ≤ disk_faults self.old + 1 }
        ensures told_faults { told_faults self.new ≡ told_faults self.old }
        ensures disk { IsTrue tells → Rests (disk self.old) (disk self.new) };

    /// Opens a file, and makes it if it is not there. Then the folder may need a sync.
    fn make(&mut self, file: u32) -> io::Result<()>
        requires { file < 4 }
        ensures opened { OnOk result (IsTrue ((ledger self.new).opened file)) }
        ensures keeps { KeepsFiles (ledger self.old) (ledger self.new) }
        ensures faults { FaultsOf disk_faults told_faults self.old self.new result }
        ensures disk { IsTrue tells → Rests (disk self.old) (disk self.new) };

    /// The length of an open file in bytes.
    fn length(&mut self, file: u32) -> io::Result<u64>
        requires file { file < 4 }
        requires open { IsTrue ((ledger self.old).opened file) }
        ensures answer { IsTrue tells → IfOk result (λ count. count ≡ length ((disk self.old).files file)) }
        ensures keeps { Keeps (ledger self.old) (ledger self.new) }
        ensures faults { FaultsOf disk_faults told_faults self.old self.new result }
        ensures disk { IsTrue tells → Rests (disk self.old) (disk self.new) };

    /// One read of an open file from a place on: some of the bytes there, and none only at the file's end.
    fn read_at(&mut self, file: u32, at: u64, into: &mut [u8]) -> io::Result<usize>
        requires file { file < 4 }
        requires open { IsTrue ((ledger self.old).opened file) }
        requires some { 0 < length into.old }
        ensures bound { IfOk result (λ count. count ≤ length into.new) }
        ensures answer { IsTrue tells → IfOk result (λ count. ReadsAt ((disk self.old).files file) at count into.new) }
        ensures keeps { Keeps (ledger self.old) (ledger self.new) }
        ensures faults { FaultsOf disk_faults told_faults self.old self.new result }
        ensures disk { IsTrue tells → Rests (disk self.old) (disk self.new) };

    /// One write of an open file at a place: it takes some of the first of these bytes, and none only in a fault. After a fault any part may
    /// have been written.
    fn write_at(&mut self, file: u32, at: u64, bytes: &[u8]) -> io::Result<usize>
        requires file { file < 4 }
        requires open { IsTrue ((ledger self.old).opened file) }
        requires place { IsTrue tells → at ≤ length ((disk self.old).files file) }
        requires some { 0 < length bytes.now }
        ensures taken { IfOk result (λ count. 0 < count) }
        ensures bound { IfOk result (λ count. count ≤ length bytes.now) }
        ensures written { IsTrue tells → IfOk result (λ count. (disk self.new).files
            ≡ with_file (disk self.old).files file (overwritten ((disk self.old).files file) at (take count bytes.now))) }
        ensures keeps { KeepsOthers file (ledger self.old) (ledger self.new) }
        ensures faults { FaultsOf disk_faults told_faults self.old self.new result }
        ensures disk { IsTrue tells → Writes file at bytes.now (disk self.old) (disk self.new) };

    /// The error for a place `count` bytes after `at` that is past the end of u64, so that no call can name it.
    fn too_far(&mut self, at: u64, count: usize) -> io::Error
        requires { 2 ^ 64 ≤ at + count }
        ensures cause { Rose (disk_faults self.old) (disk_faults self.new) }
        ensures later { disk_faults self.old ≤ disk_faults self.new }
        ensures once { disk_faults self.new ≤ disk_faults self.old + 1 }
        ensures told_faults { told_faults self.new ≡ told_faults self.old }
        ensures keeps { Keeps (ledger self.old) (ledger self.new) }
        ensures disk { IsTrue tells → Rests (disk self.old) (disk self.new) };

    /// Syncs an open file. After a fault a read may give anything that a stop may leave: a system may drop what it could not
    /// write.
    fn sync_file(&mut self, file: u32) -> io::Result<()>
        requires file { file < 4 }
        requires open { IsTrue ((ledger self.old).opened file) }
        ensures synced { OnOk result (IsTrue ((ledger self.new).synced file)) }
        ensures asks { Asks file (ledger self.old) (ledger self.new) }
        ensures counted { IsTrue tells → Rose ((ledger self.old).asked file) ((ledger self.new).asked file) }
        ensures faults { FaultsOf disk_faults told_faults self.old self.new result }
        ensures disk { IsTrue tells → Settles Stays (disk self.old) (disk self.new) result };

    /// Syncs the folder, so that files made in it are found again. After a fault the same holds as for a file.
    fn sync_folder(&mut self) -> io::Result<()>
        ensures listed { OnOk result (IsTrue (ledger self.new).listed) }
        ensures keeps { Keeps (ledger self.old) (ledger self.new) }
        ensures faults { FaultsOf disk_faults told_faults self.old self.new result }
        ensures disk { IsTrue tells → Settles Stays (disk self.old) (disk self.new) result };

    /// One write of the output: it takes some of the first of these bytes, and none only in a fault. The output may hold
    /// them back.
    fn put(&mut self, bytes: &[u8]) -> io::Result<usize>
        requires { 0 < length bytes.now }
        ensures taken { IfOk result (λ count. 0 < count) }
        ensures bound { IfOk result (λ count. count ≤ length bytes.now) }
        ensures told { IsTrue tells → IfOk result (λ count. (disk self.new).told ≡ (disk self.old).told ++ take count bytes.now) }
        ensures keeps { Keeps (ledger self.old) (ledger self.new) }
        ensures faults { FaultsOf told_faults disk_faults self.old self.new result }
        ensures disk { IsTrue tells → Emits bytes.now (disk self.old) (disk self.new) };

    /// Flushes the output: writes what it holds back.
    fn flush(&mut self) -> io::Result<()>
        ensures flushed { OnOk result (IsTrue (ledger self.new).flushed) }
        ensures keeps { Keeps (ledger self.old) (ledger self.new) }
        ensures faults { FaultsOf told_faults disk_faults self.old self.new result }
        ensures disk { IsTrue tells → Rests (disk self.old) (disk self.new) };

    /// What a read gives now is among what a stop now may leave.
    ghost read_now: { (host : Self) → IsTrue tells → (disk host).may_leave (disk host).files };

    /// This moment is one of those since an earlier one.
    ghost counts_now: { (host : Self) (t : ℕ) (files : Files) → IsTrue tells → t ≤ (disk host).clock
        → (disk host).may_leave files → (disk host).left_since t (disk host).told files };

    /// There is no moment after this one.
    ghost only_now: { (host : Self) (told : List ℕ) (files : Files) → IsTrue tells
        → (disk host).left_since (disk host).clock told files → (told ≡ (disk host).told) × (disk host).may_leave files };

    /// If all is synced, a stop now leaves what a read gives.
    ghost stable_now: { (host : Self) → IsTrue tells → IsAllSynced (ledger host) → IsStable (disk host) };
}
