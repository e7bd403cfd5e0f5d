//! Each call of a host as a part of one of a site.
ghost use Rattle.std.specs.Prelude.{◌≡◌, ◌<◌, ◌+◌, IsTrue, IfOk, IsErr, OnErr};
ghost use Rattle.test_host.specs.Flags.{AreAbsent, AreHonest, HaveNothing, IsAbsent, flags_ledger};

use site_core::{Fault, Site};
use site_folder::Host;
use std::io;

/// The files and the output of a site, of which one call reads or writes at most so many bytes.
#[derive(Drop)]
pub struct TellingHost<T: Site> {
    pub site: T,
    most: usize,
    is_there: [bool; 4],
    synced: [bool; 4],
    /// How often a sync of each file was asked for.
    asked: [u64; 4],
    /// How many places were too far.
    far: u64,
    ghost some: { 0 < most },
    ghost honest: { IsTrue T.tells → AreHonest synced (T.disk site) },
    ghost absent: { IsTrue T.tells → AreAbsent is_there (T.disk site) },
    ghost nothing: { HaveNothing is_there synced },
}

impl<T: Site> TellingHost<T> {
    /// A site of which nothing counts as synced yet. It takes no memory.
    pub fn new(site: T, most: usize) -> TellingHost<T>
        requires { 0 < most }
        ensures { result.site ≡ site }
    {
        TellingHost {
            site,
            most,
            is_there: [true; 4],
            synced: [false; 4],
            asked: [0; 4],
            far: 0,
        }
    }

    /// The same where this file is not there until it is made. So there is nothing of it to sync.
    pub fn without(site: T, most: usize, file: u32) -> TellingHost<T>
        requires some { 0 < most }
        requires file { file < 4 }
        requires absent { IsTrue T.tells → IsAbsent file (T.disk site) }
        ensures { result.site ≡ site }
    {
        let mut is_there = [true; 4];
        let mut synced = [false; 4];
        is_there[file as usize] = false;
        synced[file as usize] = true;
        TellingHost {
            site,
            most,
            is_there,
            synced,
            asked: [0; 4],
            far: 0,
        }
    }
}

/// What a site answers, as a host does.
fn answered<V: Drop>(outcome: Result<V, Fault>) -> io::Result<V>
    ensures ok { IfOk result (λ value. outcome ≡ Ok value) }
    ensures failed { OnErr result (IsErr outcome) }
{
    match outcome {
        Ok(value) => Ok(value),
        Err(_) => Err(io::ErrorKind::Other.into()),
    }
}

impl<T: Site> Host for TellingHost<T> {
    ghost tells = { T.tells };

    ghost disk = { λ h. T.disk h.site };

    ghost ledger = { λ h. flags_ledger h.is_there h.synced h.asked };

    ghost disk_faults = { λ h. T.disk_faults h.site + h.far };

    ghost told_faults = { λ h. T.told_faults h.site };

    ghost read_now = { λ h tells. T.read_now h.site tells };

    ghost counts_now = { λ h t files tells. T.counts_now h.site t files tells };

    ghost only_now = { λ h told files tells. T.only_now h.site told files tells };

    ghost stable_now = { λ h tells synced. h.honest tells synced.files };

    fn open(&mut self, file: u32) -> io::Result<()> {
        if self.is_there[file as usize] {
            return Ok(());
        }
        Err(io::ErrorKind::NotFound.into())
    }

    fn make(&mut self, file: u32) -> io::Result<()> {
        self.is_there[file as usize] = true;
        Ok(())
    }

    fn length(&mut self, file: u32) -> io::Result<u64> {
        answered(self.site.length(file))
    }

    fn read_at(&mut self, file: u32, at: u64, into: &mut [u8]) -> io::Result<usize> {
        let count = self.most.min(into.len()).min(4096);
        answered(self.site.read(file, at, &mut into[..count]))
    }

    fn write_at(&mut self, file: u32, at: u64, bytes: &[u8]) -> io::Result<usize> {
        let count = self.most.min(bytes.len());
        self.synced[file as usize] = false;
        answered(self.site.write(file, at, &bytes[..count]))?;
        Ok(count)
    }

    fn too_far(&mut self, _at: u64, _count: usize) -> io::Error {
        self.far = self.far.saturating_add(1);
        io::ErrorKind::InvalidInput.into()
    }

    fn sync_file(&mut self, file: u32) -> io::Result<()> {
        let asked = self.asked[file as usize];
        self.asked[file as usize] = asked.saturating_add(1);
        answered(self.site.sync())?;
        self.synced[file as usize] = true;
        Ok(())
    }

    fn sync_folder(&mut self) -> io::Result<()> {
        Ok(())
    }

    fn put(&mut self, bytes: &[u8]) -> io::Result<usize> {
        let count = self.most.min(bytes.len());
        answered(self.site.emit(&bytes[..count]))?;
        Ok(count)
    }

    fn flush(&mut self) -> io::Result<()> {
        Ok(())
    }
}
