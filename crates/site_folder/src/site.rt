//! The site over a host.
ghost use Rattle.std.specs.Prelude.{◌≡◌, ◌≢◌, ◌<◌, ◌≤◌, ◌+◌, ◌++◌, ℕ, IsTrue, length, IfOk, IsErr, OnErr, OnOk};
ghost use Rattle.site_core.specs.Calls.{Rests, Settles, Stays, Fills, Writes, Emits};
ghost use Rattle.site_core.specs.Causes.{Rose};
ghost use Rattle.site_core.specs.Disk.{with_file, overwritten};
ghost use Rattle.site_core.specs.Moments.{IsStable};
ghost use Rattle.site_folder.specs.Faults.{FaultsOf};
ghost use Rattle.site_folder.specs.Frames.{LooksOnly};
ghost use Rattle.site_folder.specs.Ledger.{IsAllSynced, Keeps, KeepsFiles};
ghost use Rattle.site_folder.specs.Notes.{AreAllNoted, AsksDue, IsNoted, AreTrue};

use crate::calls::{fill, find, put, sync_files, tell};
use crate::host::Host;
use crate::notes::Notes;
use site_core::{Fault, Site};
use std::io;

/// Four files of a folder and an output, with the faults that the host counts, and two counts of its own, of reads and
/// of writes, which begin at 0. A file is opened when it is first asked for, and made at its first write. A sync syncs
/// what was written or made since its last sync.
#[derive(Drop)]
pub struct FolderSite<H: Host> {
    /// Where the files lie and the output goes.
    pub host: H,
    notes: Notes,
    reads: u64,
    writes: u64,
    ghost noted: { AreTrue notes (H.ledger host) },
}

impl<H: Host> FolderSite<H> {
    /// A host that has not been called yet. Does not allocate.
    pub fn new(host: H) -> FolderSite<H>
        ensures host { result.host ≡ host }
        ensures reads { result.reads ≡ 0 }
        ensures writes { result.writes ≡ 0 }
    {
        FolderSite {
            host,
            notes: Notes::none(),
            reads: 0,
            writes: 0,
        }
    }
}

/// Turns a fault of the host into one of the site.
fn answer<T: Drop>(outcome: io::Result<T>) -> Result<T, Fault>
    ensures ok { IfOk result (λ value. outcome ≡ Ok value) }
    ensures failed { OnErr result (IsErr outcome) }
{
    match outcome {
        Ok(value) => Ok(value),
        Err(_) => Err(Fault),
    }
}

/// The length of a file; 0 if it is not there.
fn length_of<H: Host>(host: &mut H, file: u32) -> io::Result<u64>
    requires { file < 4 }
    ensures answer { IsTrue H.tells → IfOk result (λ count. count ≡ length ((H.disk host.old).files file)) }
    ensures looks { LooksOnly H.Host host.old host.new result }
{
    if find(host, file)? {
        return host.length(file);
    }
    Ok(0)
}

/// Fills `into` with the bytes of a file from a place on, until it is full or the file ends. A file that is not there gives
/// none.
fn read_from<H: Host>(host: &mut H, file: u32, at: u64, into: &mut [u8]) -> io::Result<usize>
    requires { file < 4 }
    ensures bound { IfOk result (λ count. count ≤ length into.new) }
    ensures answer { IsTrue H.tells → IfOk result (λ count. Fills ((H.disk host.old).files file) at count into.new) }
    ensures looks { LooksOnly H.Host host.old host.new result }
{
    if find(host, file)? {
        return fill(host, file, at, into);
    }
    Ok(0)
}

/// Opens a file, and makes it if it is not there; the folder then needs a sync.
fn find_or_make<H: Host>(host: &mut H, is_listed: &mut bool, file: u32) -> io::Result<()>
    requires file { file < 4 }
    requires listed { IsTrue is_listed.old → IsTrue (H.ledger host.old).listed }
    ensures opened { OnOk result (IsTrue ((H.ledger host.new).opened file)) }
    ensures listed { IsTrue is_listed.new → IsTrue (H.ledger host.new).listed }
    ensures kept { IsTrue H.tells → 0 < length ((H.disk host.old).files file) → OnOk result (is_listed.new ≡ is_listed.old) }
    ensures keeps { KeepsFiles (H.ledger host.old) (H.ledger host.new) }
    ensures faults { FaultsOf H.disk_faults H.told_faults host.old host.new result }
    ensures disk { IsTrue H.tells → Rests (H.disk host.old) (H.disk host.new) }
{
    if find(host, file)? {
        return Ok(());
    }
    *is_listed = false;
    host.make(file)
}

/// Writes bytes at a place of a file, and makes the file if it is not there. The file's note is cleared first, since a write that fails
/// may have changed the file too.
fn write_to<H: Host>(
    host: &mut H,
    notes: &mut Notes,
    file: u32,
    at: u64,
    bytes: &[u8],
) -> io::Result<()>
    requires file { file < 4 }
    requires place { IsTrue H.tells → at ≤ length ((H.disk host.old).files file) }
    requires noted { AreTrue notes.old (H.ledger host.old) }
    ensures written { IsTrue H.tells → OnOk result ((H.disk host.new).files
        ≡ with_file (H.disk host.old).files file (overwritten ((H.disk host.old).files file) at bytes.now)) }
    ensures noted { AreTrue notes.new (H.ledger host.new) }
    ensures others { (g : ℕ) → g ≢ file → IsNoted notes.old.is_synced g → IsNoted notes.new.is_synced g }
    ensures kept { IsTrue H.tells → 0 < length ((H.disk host.old).files file) → OnOk result (notes.new.is_listed ≡ notes.old.is_listed) }
    ensures faults { FaultsOf H.disk_faults H.told_faults host.old host.new result }
    ensures disk { IsTrue H.tells → Writes file at bytes.now (H.disk host.old) (H.disk host.new) }
{
    notes.is_synced[file as usize] = false;
    find_or_make(host, &mut notes.is_listed, file)?;
    put(host, file, at, bytes)
}

/// Syncs all files that are not noted as synced, and the folder if a file may have been made since it was synced.
fn sync_all<H: Host>(host: &mut H, notes: &mut Notes) -> io::Result<()>
    requires { AreTrue notes.old (H.ledger host.old) }
    ensures synced { OnOk result (IsAllSynced (H.ledger host.new)) }
    ensures stable { IsTrue H.tells → OnOk result (IsStable (H.disk host.new)) }
    ensures noted { AreTrue notes.new (H.ledger host.new) }
    ensures all { OnOk result (AreAllNoted notes.new) }
    ensures asks { AsksDue notes.old.is_synced (H.ledger host.old) (H.ledger host.new) }
    ensures faults { FaultsOf H.disk_faults H.told_faults host.old host.new result }
    ensures disk { IsTrue H.tells → Settles Stays (H.disk host.old) (H.disk host.new) result }
{
    sync_files(host, &mut notes.is_synced)?;
    if !notes.is_listed {
        host.sync_folder()?;
        notes.is_listed = true;
    }
    Ok(())
}

impl<H: Host> Site for FolderSite<H> {
    ghost tells = { H.tells };

    ghost disk = { λ s. H.disk s.host };

    ghost disk_faults = { λ s. H.disk_faults s.host };

    ghost told_faults = { λ s. H.told_faults s.host };

    ghost reads = { λ s. s.reads };

    ghost writes = { λ s. s.writes };

    ghost read_now = { λ s tells. H.read_now s.host tells };

    ghost counts_now = { λ s t files tells. H.counts_now s.host t files tells };

    ghost only_now = { λ s told files tells. H.only_now s.host told files tells };

    fn length(&mut self, file: u32) -> Result<u64, Fault>
        requires { file < 4 }
        ensures answer { IsTrue H.tells → IfOk result (λ count. count ≡ length ((H.disk self.old.host).files file)) }
        ensures looks { LooksOnly H.Host self.old.host self.new.host result }
        ensures notes { self.new.notes ≡ self.old.notes }
        ensures reads { self.new.reads ≡ self.old.reads }
        ensures writes { self.new.writes ≡ self.old.writes }
    {
        answer(length_of(&mut self.host, file))
    }

    fn read(&mut self, file: u32, at: u64, into: &mut [u8]) -> Result<usize, Fault>
        requires { file < 4 }
        ensures bound { IfOk result (λ count. count ≤ length into.new) }
        ensures answer { IsTrue H.tells → IfOk result (λ count. Fills ((H.disk self.old.host).files file) at count into.new) }
        ensures looks { LooksOnly H.Host self.old.host self.new.host result }
        ensures notes { self.new.notes ≡ self.old.notes }
        ensures later { self.old.reads ≤ self.new.reads }
        ensures counted { Rose self.old.reads self.new.reads }
        ensures one { self.new.reads ≤ self.old.reads + 1 }
        ensures writes { self.new.writes ≡ self.old.writes }
    {
        self.reads = self.reads.saturating_add(1);
        answer(read_from(&mut self.host, file, at, into))
    }

    /// Writes bytes. The notes of other files stay, and so does that of the folder if no file is made.
    fn write(&mut self, file: u32, at: u64, bytes: &[u8]) -> Result<(), Fault>
        requires file { file < 4 }
        requires place { IsTrue H.tells → at ≤ length ((H.disk self.old.host).files file) }
        ensures written { IsTrue H.tells → OnOk result ((H.disk self.new.host).files
            ≡ with_file (H.disk self.old.host).files file (overwritten ((H.disk self.old.host).files file) at bytes.now)) }
        ensures others { (g : ℕ) → g ≢ file → IsNoted self.old.notes.is_synced g → IsNoted self.new.notes.is_synced g }
        ensures kept { IsTrue H.tells → 0 < length ((H.disk self.old.host).files file)
            → OnOk result (self.new.notes.is_listed ≡ self.old.notes.is_listed) }
        ensures disk { IsTrue H.tells → Writes file at bytes.now (H.disk self.old.host) (H.disk self.new.host) }
        ensures faults { FaultsOf H.disk_faults H.told_faults self.old.host self.new.host result }
        ensures reads { self.new.reads ≡ self.old.reads }
        ensures later { self.old.writes ≤ self.new.writes }
        ensures counted { Rose self.old.writes self.new.writes }
        ensures one { self.new.writes ≤ self.old.writes + 1 }
    {
        self.writes = self.writes.saturating_add(1);
        answer(write_to(&mut self.host, &mut self.notes, file, at, bytes))
    }

    /// Syncs all that is not noted as synced, and asks for no sync of a file that is.
    fn sync(&mut self) -> Result<(), Fault>
        ensures synced { OnOk result (IsAllSynced (H.ledger self.new.host)) }
        ensures asks { AsksDue self.old.notes.is_synced (H.ledger self.old.host) (H.ledger self.new.host) }
        ensures noted { OnOk result (AreAllNoted self.new.notes) }
        ensures stable { IsTrue H.tells → OnOk result (IsStable (H.disk self.new.host)) }
        ensures disk { IsTrue H.tells → Settles Stays (H.disk self.old.host) (H.disk self.new.host) result }
        ensures faults { FaultsOf H.disk_faults H.told_faults self.old.host self.new.host result }
        ensures reads { self.new.reads ≡ self.old.reads }
        ensures writes { self.new.writes ≡ self.old.writes }
    {
        answer(sync_all(&mut self.host, &mut self.notes))
    }

    fn emit(&mut self, bytes: &[u8]) -> Result<(), Fault>
        ensures told { IsTrue H.tells → OnOk result ((H.disk self.new.host).told ≡ (H.disk self.old.host).told ++ bytes.now) }
        ensures disk { IsTrue H.tells → Emits bytes.now (H.disk self.old.host) (H.disk self.new.host) }
        ensures faults { FaultsOf H.told_faults H.disk_faults self.old.host self.new.host result }
        ensures notes { self.new.notes ≡ self.old.notes }
        ensures reads { self.new.reads ≡ self.old.reads }
        ensures writes { self.new.writes ≡ self.old.writes }
    {
        answer(tell(&mut self.host, bytes))
    }
}
