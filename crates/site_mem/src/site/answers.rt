//! What a site in memory answers.
ghost use Rattle.std.specs.Prelude.{◌≡◌, ◌<◌, ◌≤◌, ◌+◌, ◌++◌, true, length, IfOk, OnOk, OnErr, reverse};
ghost use Rattle.site_core.specs.Moments.{IsStable};
ghost use Rattle.site_core.specs.Calls.{Rests, Settles, Stays, Fills, Writes, Emits};
ghost use Rattle.site_mem.specs.History.{files_of};
ghost use Rattle.site_mem.specs.Laws.{read_now, counts_now, only_now};
ghost use Rattle.site_mem.specs.Counts.{risen, Counts};
ghost use Rattle.site_mem.specs.Tape.{tape_disk, IsWritten, ReachesTorn, ReachesPrefixes, LeavesAsBefore};

use crate::call::Call;
use crate::log::Turn;
use crate::site::MemorySite;
use site_core::{Fault, Site};

impl Site for MemorySite {
    ghost use Rattle.site_mem.specs.Site.{site_disk, site_tally, site_tape, stable_files, IsCall, IsNamed, IsStopped, StarvesInNote, Unless};

    ghost tells = { true };

    ghost disk = { λ s. tape_disk s.tape };

    ghost disk_faults = { λ s. s.disk_faults };

    ghost told_faults = { λ s. s.told_faults };

    ghost reads = { λ s. s.reads };

    ghost writes = { λ s. s.writes };

    ghost read_now = { λ s tells. read_now (files_of s.tape.first) (reverse s.tape.steps.items) };

    ghost counts_now = { λ s t files tells. counts_now (files_of s.tape.first) (reverse s.tape.steps.items) t files };

    ghost only_now = { λ s told files tells. only_now (files_of s.tape.first) (reverse s.tape.steps.items) told files };

    fn length(&mut self, file: u32) -> Result<u64, Fault>
        requires { file < 4 }
        ensures answer { IfOk result (λ count. count ≡ length ((site_disk self.old).files file)) }
        ensures disk { Rests (site_disk self.old) (site_disk self.new) }
        ensures counts { Counts (Call.Length file) (site_tally self.old) (site_tally self.new) result }
        ensures call { IsCall (Call.Length file) self.old self.new result }
        ensures memory { StarvesInNote self.old self.new }
        ensures tape { site_tape self.new ≡ site_tape self.old }
    {
        let steps = self.tape.steps.len();
        match self.log.begin(Call::Length { file }, steps) {
            Turn::Goes => Ok(self.tape.bytes(file).len() as u64),
            Turn::Fails | Turn::Stops => Err(failed(&mut self.disk_faults)),
            Turn::Starves => Err(starved(&mut self.disk_faults, &mut self.starved)),
        }
    }

    fn read(&mut self, file: u32, at: u64, into: &mut [u8]) -> Result<usize, Fault>
        requires file { file < 4 }
        requires some { 0 < length into.old }
        requires few { length into.old ≤ 4096 }
        ensures bound { IfOk result (λ count. count ≤ length into.new) }
        ensures answer { IfOk result (λ count. Fills ((site_disk self.old).files file) at count into.new) }
        ensures unfilled { OnErr result (into.new ≡ into.old) }
        ensures disk { Rests (site_disk self.old) (site_disk self.new) }
        ensures counts { Counts (Call.Read file at (length into.old)) (site_tally self.old) (site_tally self.new) result }
        ensures call { IsCall (Call.Read file at (length into.old)) self.old self.new result }
        ensures memory { StarvesInNote self.old self.new }
        ensures tape { site_tape self.new ≡ site_tape self.old }
    {
        self.reads = self.reads.saturating_add(1);
        let len = into.len() as u64;
        let steps = self.tape.steps.len();
        match self.log.begin(Call::Read { file, at, len }, steps) {
            Turn::Goes => Ok(fill(self.tape.bytes(file), at, into)),
            Turn::Fails | Turn::Stops => Err(failed(&mut self.disk_faults)),
            Turn::Starves => Err(starved(&mut self.disk_faults, &mut self.starved)),
        }
    }

    fn write(&mut self, file: u32, at: u64, bytes: &[u8]) -> Result<(), Fault>
        requires file { file < 4 }
        requires place { at ≤ length ((site_disk self.old).files file) }
        requires some { 0 < length bytes.now }
        ensures written { OnOk result (IsWritten file at bytes.now
            (site_disk self.old).files (site_disk self.new).files) }
        ensures unread { OnErr result ((site_disk self.new).files ≡ (site_disk self.old).files) }
        ensures disk { Writes file at bytes.now (site_disk self.old) (site_disk self.new) }
        ensures counts { Counts (Call.Write file at (length bytes.now)) (site_tally self.old) (site_tally self.new) result }
        ensures call { IsCall (Call.Write file at (length bytes.now)) self.old self.new result }
        ensures memory { IsStopped self.old → StarvesInNote self.old self.new }
        ensures stopped { IsStopped self.old → site_tape self.new ≡ site_tape self.old }
        ensures reaches { Unless self.old self.new
            (ReachesTorn file at bytes.now (site_disk self.old) (site_disk self.new)) }
        ensures left { LeavesAsBefore (site_disk self.old) (site_disk self.new) }
        ensures kept { stable_files self.new ≡ stable_files self.old }
    {
        self.writes = self.writes.saturating_add(1);
        let len = bytes.len() as u64;
        let steps = self.tape.steps.len();
        match self.log.begin(Call::Write { file, at, len }, steps) {
            Turn::Goes => match self.tape.write(file, at, bytes) {
                Ok(()) => Ok(()),
                Err(_) => Err(starved(&mut self.disk_faults, &mut self.starved)),
            },
            Turn::Fails => match self.tape.tear(file, at, bytes) {
                Ok(()) => Err(failed(&mut self.disk_faults)),
                Err(_) => Err(starved(&mut self.disk_faults, &mut self.starved)),
            },
            Turn::Stops => Err(failed(&mut self.disk_faults)),
            Turn::Starves => Err(starved(&mut self.disk_faults, &mut self.starved)),
        }
    }

    fn sync(&mut self) -> Result<(), Fault>
        ensures stable { OnOk result (IsStable (site_disk self.new)) }
        ensures disk { Settles Stays (site_disk self.old) (site_disk self.new) result }
        ensures rests { Rests (site_disk self.old) (site_disk self.new) }
        ensures counts { Counts (Call.Sync) (site_tally self.old) (site_tally self.new) result }
        ensures call { IsCall (Call.Sync) self.old self.new result }
        ensures memory { IsNamed self.old → StarvesInNote self.old self.new }
        ensures stopped { IsStopped self.old → site_tape self.new ≡ site_tape self.old }
        ensures left { OnErr result (LeavesAsBefore (site_disk self.old) (site_disk self.new)) }
        ensures kept { OnErr result (stable_files self.new ≡ stable_files self.old) }
        ensures taken { OnOk result (stable_files self.new ≡ (site_disk self.new).files) }
    {
        let steps = self.tape.steps.len();
        match self.log.begin(Call::Sync, steps) {
            Turn::Goes => match self.tape.sync() {
                Ok(()) => Ok(()),
                Err(_) => Err(starved(&mut self.disk_faults, &mut self.starved)),
            },
            Turn::Fails | Turn::Stops => Err(failed(&mut self.disk_faults)),
            Turn::Starves => Err(starved(&mut self.disk_faults, &mut self.starved)),
        }
    }

    fn emit(&mut self, bytes: &[u8]) -> Result<(), Fault>
        ensures told { OnOk result ((site_disk self.new).told ≡ (site_disk self.old).told ++ bytes.now) }
        ensures untold { OnErr result ((site_disk self.new).told ≡ (site_disk self.old).told) }
        ensures disk { Emits bytes.now (site_disk self.old) (site_disk self.new) }
        ensures counts { Counts (Call.Emit (length bytes.now)) (site_tally self.old) (site_tally self.new) result }
        ensures call { IsCall (Call.Emit (length bytes.now)) self.old self.new result }
        ensures memory { IsStopped self.old → StarvesInNote self.old self.new }
        ensures stopped { IsStopped self.old → site_tape self.new ≡ site_tape self.old }
        ensures reaches { Unless self.old self.new
            (ReachesPrefixes bytes.now (site_disk self.old) (site_disk self.new)) }
        ensures left { LeavesAsBefore (site_disk self.old) (site_disk self.new) }
        ensures kept { stable_files self.new ≡ stable_files self.old }
    {
        let len = bytes.len() as u64;
        let steps = self.tape.steps.len();
        match self.log.begin(Call::Emit { len }, steps) {
            Turn::Goes => match self.tape.emit(bytes) {
                Ok(()) => Ok(()),
                Err(_) => Err(starved(&mut self.told_faults, &mut self.starved)),
            },
            Turn::Fails => match self.tape.hush(bytes) {
                Ok(()) => Err(failed(&mut self.told_faults)),
                Err(_) => Err(starved(&mut self.told_faults, &mut self.starved)),
            },
            Turn::Stops => Err(failed(&mut self.told_faults)),
            Turn::Starves => Err(starved(&mut self.told_faults, &mut self.starved)),
        }
    }
}

/// The fault of a call that was to fail.
pub fn failed(faults: &mut u64) -> Fault
    ensures later { faults.old ≤ faults.new }
    ensures faults { faults.new ≡ risen faults.old }
{
    *faults = faults.saturating_add(1);
    Fault
}

/// The fault of a call that found no memory: it raises both counts. It takes no memory.
pub fn starved(faults: &mut u64, starved: &mut u64) -> Fault
    ensures later { faults.old ≤ faults.new }
    ensures faults { faults.new ≡ risen faults.old }
    ensures starved { starved.new ≡ risen starved.old }
{
    *starved = starved.saturating_add(1);
    failed(faults)
}

/// Copies the bytes from a place on, as many as there are or as there is room for, and answers how many. It takes no memory.
pub fn fill(bytes: &[u8], at: u64, into: &mut [u8]) -> usize
    ensures { Fills bytes.now at result into.new }
{
    if at >= bytes.len() as u64 {
        return 0;
    }
    let rest = &bytes[at as usize..];
    let count = into.len().min(rest.len());
    into[..count].copy_from_slice(&rest[..count]);
    count
}
