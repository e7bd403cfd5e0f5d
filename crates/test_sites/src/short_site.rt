//! A site in memory of which one read gives a byte fewer.
ghost use Rattle.std.specs.Prelude.{◌≡◌, ◌<◌, ◌≤◌, ◌+◌, ◌++◌, ℕ, false, length, IfOk, IsErr, OnOk, OnErr};
ghost use Rattle.site_core.specs.Calls.{Fills, Writes};
ghost use Rattle.site_core.specs.Moments.{IsStable};
ghost use Rattle.site_core.specs.Silent.{no_disk, no_left};
ghost use Rattle.site_mem.specs.Counts.{Counts};
ghost use Rattle.site_mem.specs.Tape.{IsWritten};
ghost use Rattle.test_sites.specs.ShortSite.{is_asked};

use site_core::{Fault, Site};
use site_mem::{Call, MemorySite};

/// A site in memory of which one read gives one byte fewer than the site has there. No files that are left alone do this, so
/// it tells nothing. All else is as the site below does it, but that a write past the end of a file fails and is no call there.
#[derive(Drop)]
pub struct ShortSite {
    site: MemorySite,
    short: Option<u64>,
}

impl ShortSite {
    ghost use Rattle.test_sites.specs.ShortSite.{site_below, short_call};

    /// Over this site. The call with this number, counted from 0 as the site below counts its calls, gives one byte fewer
    /// where it is a read that gives some. It takes no memory.
    pub fn new(site: MemorySite, short: Option<u64>) -> ShortSite
        ensures site { site_below result ≡ site }
        ensures short { short_call result ≡ short }
    {
        ShortSite { site, short }
    }

    /// The site below. It takes no memory.
    pub fn site(&self) -> &MemorySite
        ensures { result.now ≡ site_below self.now }
    {
        &self.site
    }

    /// The site below. It takes no memory.
    pub fn into_site(self) -> MemorySite
        ensures { result ≡ site_below self }
    {
        self.site
    }
}

impl Site for ShortSite {
    ghost use Rattle.site_mem.specs.Site.{site_disk, site_tape, site_calls, stable_files, IsCall};
    ghost use Rattle.test_sites.specs.ShortSite.{site_below, short_call, shortened, tally_below};

    ghost tells = { false };

    ghost disk = { λ _. no_disk };

    ghost disk_faults = { λ s. (tally_below s).disk_faults };

    ghost told_faults = { λ s. (tally_below s).told_faults };

    ghost reads = { λ s. (tally_below s).reads };

    ghost writes = { λ s. (tally_below s).writes };

    ghost read_now = { λ s tells. no_left tells };

    ghost counts_now = { λ s t files tells. no_left tells };

    ghost only_now = { λ s told files tells. no_left tells };

    fn length(&mut self, file: u32) -> Result<u64, Fault>
        requires { file < 4 }
        ensures counts { Counts (Call.Length file) (tally_below self.old) (tally_below self.new) result }
        ensures answer { IfOk result (λ count. count ≡ length ((site_disk (site_below self.old)).files file)) }
        ensures call { IsCall (Call.Length file) (site_below self.old) (site_below self.new) result }
        ensures tape { site_tape (site_below self.new) ≡ site_tape (site_below self.old) }
        ensures short { short_call self.new ≡ short_call self.old }
    {
        self.site.length(file)
    }

    fn read(&mut self, file: u32, at: u64, into: &mut [u8]) -> Result<usize, Fault>
        requires file { file < 4 }
        requires some { 0 < length into.old }
        requires few { length into.old ≤ 4096 }
        ensures bound { IfOk result (λ count. count ≤ length into.new) }
        ensures counts { Counts (Call.Read file at (length into.old)) (tally_below self.old) (tally_below self.new) result }
        ensures answer { IfOk result (λ count. (whole : ℕ) × (count ≡ shortened self.old whole)
            × Fills ((site_disk (site_below self.old)).files file) at whole into.new) }
        ensures unfilled { OnErr result (into.new ≡ into.old) }
        ensures call { IsCall (Call.Read file at (length into.old)) (site_below self.old) (site_below self.new) result }
        ensures tape { site_tape (site_below self.new) ≡ site_tape (site_below self.old) }
        ensures short { short_call self.new ≡ short_call self.old }
    {
        let asked = is_asked(self.short, self.site.number());
        let count = self.site.read(file, at, into)?;
        Ok(if asked {
            count.saturating_sub(1)
        } else {
            count
        })
    }

    fn write(&mut self, file: u32, at: u64, bytes: &[u8]) -> Result<(), Fault>
        requires file { file < 4 }
        requires some { 0 < length bytes.now }
        ensures counts { Counts (Call.Write file at (length bytes.now)) (tally_below self.old) (tally_below self.new) result }
        ensures written { OnOk result (IsWritten file at bytes.now
            (site_disk (site_below self.old)).files (site_disk (site_below self.new)).files) }
        ensures unread { OnErr result ((site_disk (site_below self.new)).files ≡ (site_disk (site_below self.old)).files) }
        ensures disk { at ≤ length ((site_disk (site_below self.old)).files file)
            → Writes file at bytes.now (site_disk (site_below self.old)) (site_disk (site_below self.new)) }
        ensures call { at ≤ length ((site_disk (site_below self.old)).files file)
            → IsCall (Call.Write file at (length bytes.now)) (site_below self.old) (site_below self.new) result }
        ensures past_end { length ((site_disk (site_below self.old)).files file) < at → IsErr result }
        ensures no_call { length ((site_disk (site_below self.old)).files file) < at
            → site_calls (site_below self.new) ≡ site_calls (site_below self.old) }
        ensures kept { stable_files (site_below self.new) ≡ stable_files (site_below self.old) }
        ensures short { short_call self.new ≡ short_call self.old }
    {
        if at > self.site.file(file).len() as u64 {
            return Err(self.site.refuse_write());
        }
        self.site.write(file, at, bytes)
    }

    fn sync(&mut self) -> Result<(), Fault>
        ensures counts { Counts (Call.Sync) (tally_below self.old) (tally_below self.new) result }
        ensures stable { OnOk result (IsStable (site_disk (site_below self.new))) }
        ensures call { IsCall (Call.Sync) (site_below self.old) (site_below self.new) result }
        ensures kept { OnErr result (stable_files (site_below self.new) ≡ stable_files (site_below self.old)) }
        ensures taken { OnOk result (stable_files (site_below self.new) ≡ (site_disk (site_below self.new)).files) }
        ensures short { short_call self.new ≡ short_call self.old }
    {
        self.site.sync()
    }

    fn emit(&mut self, bytes: &[u8]) -> Result<(), Fault>
        ensures counts { Counts (Call.Emit (length bytes.now)) (tally_below self.old) (tally_below self.new) result }
        ensures told { OnOk result ((site_disk (site_below self.new)).told ≡ (site_disk (site_below self.old)).told ++ bytes.now) }
        ensures untold { OnErr result ((site_disk (site_below self.new)).told ≡ (site_disk (site_below self.old)).told) }
        ensures call { IsCall (Call.Emit (length bytes.now)) (site_below self.old) (site_below self.new) result }
        ensures kept { stable_files (site_below self.new) ≡ stable_files (site_below self.old) }
        ensures short { short_call self.new ≡ short_call self.old }
    {
        self.site.emit(bytes)
    }
}

fn is_asked(short: Option<u64>, number: u64) -> bool
    ensures { result ≡ is_asked short number }
{
    match short {
        Some(asked) => asked == number,
        None => false,
    }
}
