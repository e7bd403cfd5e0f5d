//! A site in memory of which no call fails.
ghost use Rattle.std.specs.Prelude.{◌≡◌, ◌<◌, ◌≤◌, ◌+◌, ◌++◌, [], true, length, IfOk, IsOk, OnOk, OnErr, reverse};
ghost use Rattle.site_core.specs.Disk.{with_file, overwritten};
ghost use Rattle.site_core.specs.Moments.{IsStable};
ghost use Rattle.site_core.specs.Calls.{Rests, Settles, Stays, Fills, Writes, Emits};
ghost use Rattle.site_mem.specs.Counts.{risen, Counts};
ghost use Rattle.site_mem.specs.History.{texts_of};

mod changes;

use changes::{put, say};
use fact_model::Text;
use site_core::{Fault, Site};
use site_mem::{Call, fill, starved};
use std::alloc::Global;

/// Four files and an output in memory, of which no call fails and each write is stable at once. A fault comes from want of
/// memory alone. A write copies its file.
#[derive(Drop)]
pub struct SureSite {
    alloc: Global,
    files: [Text; 4],
    told: Vec<u8>,
    past: Vec<Change>,
    starved: u64,
    disk_faults: u64,
    told_faults: u64,
    reads: u64,
    writes: u64,
}

/// A change, with what was there before it.
#[derive(Drop)]
pub enum Change {
    /// A file was written, which had these bytes.
    Wrote { file: u32, bytes: Text },
    /// Bytes were told behind so many others.
    Told { count: usize },
}

impl SureSite {
    ghost use Rattle.test_sites.specs.SureSite.{sure_disk, sure_starved, IsUnasked};

    /// These files, and nothing told. It takes no memory.
    pub fn new(alloc: Global, files: [Text; 4]) -> SureSite
        ensures files { (sure_disk result).files ≡ texts_of files }
        ensures told { (sure_disk result).told ≡ [] }
        ensures unasked { IsUnasked result }
    {
        SureSite {
            alloc,
            files,
            told: Vec::new(alloc),
            past: Vec::new(alloc),
            starved: 0,
            disk_faults: 0,
            told_faults: 0,
            reads: 0,
            writes: 0,
        }
    }

    /// The output. It takes no memory.
    pub fn told(&self) -> &[u8]
        ensures { result.now ≡ (sure_disk self.now).told }
    {
        &self.told
    }

    /// A file. It takes no memory.
    pub fn file(&self, file: u32) -> &[u8]
        requires { file < 4 }
        ensures { result.now ≡ (sure_disk self.now).files file }
    {
        bytes_of(&self.files, file)
    }

    /// How often a call found no memory. It takes no memory.
    pub fn starved(&self) -> u64
        ensures { result ≡ sure_starved self.now }
    {
        self.starved
    }
}

impl Site for SureSite {
    ghost use Rattle.test_sites.specs.ChangesLaws.{sure_counts_now, sure_only_now};
    ghost use Rattle.test_sites.specs.SureSite.{sure_disk, sure_starved, sure_tally};
    ghost use Rattle.std.specs.Prelude.{refl};

    ghost tells = { true };

    ghost disk = { λ s. sure_disk s };

    ghost disk_faults = { λ s. s.disk_faults };

    ghost told_faults = { λ s. s.told_faults };

    ghost reads = { λ s. s.reads };

    ghost writes = { λ s. s.writes };

    ghost read_now = { λ s tells. refl };

    ghost counts_now = { λ s t files tells. sure_counts_now (texts_of s.files) s.told.items (reverse s.past.items) t files };

    ghost only_now = { λ s told files tells. sure_only_now (texts_of s.files) s.told.items (reverse s.past.items) told files };

    fn length(&mut self, file: u32) -> Result<u64, Fault>
        requires { file < 4 }
        ensures answer { IfOk result (λ count. count ≡ length ((sure_disk self.old).files file)) }
        ensures disk { Rests (sure_disk self.old) (sure_disk self.new) }
        ensures counts { Counts (Call.Length file) (sure_tally self.old) (sure_tally self.new) result }
        ensures sure { IsOk result }
        ensures starved { sure_starved self.new ≡ sure_starved self.old }
    {
        Ok(bytes_of(&self.files, file).len() as u64)
    }

    fn read(&mut self, file: u32, at: u64, into: &mut [u8]) -> Result<usize, Fault>
        requires file { file < 4 }
        requires some { 0 < length into.old }
        requires few { length into.old ≤ 4096 }
        ensures bound { IfOk result (λ count. count ≤ length into.new) }
        ensures answer { IfOk result (λ count. Fills ((sure_disk self.old).files file) at count into.new) }
        ensures disk { Rests (sure_disk self.old) (sure_disk self.new) }
        ensures counts { Counts (Call.Read file at (length into.old)) (sure_tally self.old) (sure_tally self.new) result }
        ensures sure { IsOk result }
        ensures starved { sure_starved self.new ≡ sure_starved self.old }
    {
        self.reads = self.reads.saturating_add(1);
        Ok(fill(bytes_of(&self.files, file), at, into))
    }

    fn write(&mut self, file: u32, at: u64, bytes: &[u8]) -> Result<(), Fault>
        requires file { file < 4 }
        requires place { at ≤ length ((sure_disk self.old).files file) }
        requires some { 0 < length bytes.now }
        ensures written { OnOk result ((sure_disk self.new).files
            ≡ with_file (sure_disk self.old).files file (overwritten ((sure_disk self.old).files file) at bytes.now)) }
        ensures unwritten { OnErr result ((sure_disk self.new).files ≡ (sure_disk self.old).files) }
        ensures disk { Writes file at bytes.now (sure_disk self.old) (sure_disk self.new) }
        ensures counts { Counts (Call.Write file at (length bytes.now)) (sure_tally self.old) (sure_tally self.new) result }
        ensures starved { OnErr result (sure_starved self.new ≡ risen (sure_starved self.old)) }
        ensures fed { OnOk result (sure_starved self.new ≡ sure_starved self.old) }
    {
        self.writes = self.writes.saturating_add(1);
        match put(self.alloc, &mut self.files, &mut self.past, file, at, bytes) {
            Ok(()) => Ok(()),
            Err(_) => Err(starved(&mut self.disk_faults, &mut self.starved)),
        }
    }

    fn sync(&mut self) -> Result<(), Fault>
        ensures stable { OnOk result (IsStable (sure_disk self.new)) }
        ensures disk { Settles Stays (sure_disk self.old) (sure_disk self.new) result }
        ensures rests { Rests (sure_disk self.old) (sure_disk self.new) }
        ensures counts { Counts (Call.Sync) (sure_tally self.old) (sure_tally self.new) result }
        ensures sure { IsOk result }
        ensures starved { sure_starved self.new ≡ sure_starved self.old }
    {
        Ok(())
    }

    fn emit(&mut self, bytes: &[u8]) -> Result<(), Fault>
        ensures told { OnOk result ((sure_disk self.new).told ≡ (sure_disk self.old).told ++ bytes.now) }
        ensures untold { OnErr result ((sure_disk self.new).told ≡ (sure_disk self.old).told) }
        ensures disk { Emits bytes.now (sure_disk self.old) (sure_disk self.new) }
        ensures counts { Counts (Call.Emit (length bytes.now)) (sure_tally self.old) (sure_tally self.new) result }
        ensures starved { OnErr result (sure_starved self.new ≡ risen (sure_starved self.old)) }
        ensures fed { OnOk result (sure_starved self.new ≡ sure_starved self.old) }
    {
        match say(&mut self.told, &mut self.past, bytes) {
            Ok(()) => Ok(()),
            Err(_) => Err(starved(&mut self.told_faults, &mut self.starved)),
        }
    }
}

fn bytes_of(files: &[Text; 4], file: u32) -> &[u8]
    requires { file < 4 }
    ensures { result.now ≡ texts_of files.now file }
{
    files[file as usize].as_bytes()
}
