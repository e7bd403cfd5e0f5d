//! The files of the folder that are open, in single calls of std.
ghost use Rattle.std.specs.Prelude.{◌≡◌, ◌≢◌, ◌<◌, ◌≤◌, ◌↔◌, ℕ, length, IfOk, IsSome, IsTrue, OnOk, Some};
ghost use Rattle.site_host.specs.Slots.{file_in};

use crate::data_file::DataFile;
use crate::faults::taken;
use std::fs::{File, OpenFile};
use std::io;
use std::os::unix::fs::FileExt;

/// The four files by their numbers, if they are open.
#[derive(Drop)]
pub struct OpenFiles {
    files: [Option<DataFile>; 4],
}

impl OpenFiles {
    /// No file is open.
    pub fn new() -> OpenFiles {
        OpenFiles {
            files: [None, None, None, None],
        }
    }

    /// Whether a file is open.
    pub fn has(&self, file: u32) -> bool
        requires { file < 4 }
        ensures { IsTrue result ↔ IsSome (file_in self.now.files file) }
    {
        self.files[file as usize].is_some()
    }

    /// Keeps a file that was opened. If it has the descriptor of a standard stream, it is closed again, and that is a
    /// fault.
    pub fn keep(&mut self, file: u32, open: File) -> io::Result<()>
        requires { file < 4 }
        ensures kept { OnOk result (file_in self.new.files file ≡ Some «open») }
        ensures others { (g : ℕ) → g ≢ file → file_in self.new.files g ≡ file_in self.old.files g }
        ensures stay { (g : ℕ) → IsSome (file_in self.old.files g) → IsSome (file_in self.new.files g) }
    {
        self.files[file as usize] = Some(DataFile::new(open)?);
        Ok(())
    }

    fn get(&self, file: u32) -> io::Result<&File>
        requires { file < 4 }
        ensures { IfOk result (λ found. file_in self.now.files file ≡ Some found.now) }
    {
        match &self.files[file as usize] {
            Some(open) => Ok(&open.file),
            None => Err(io::ErrorKind::NotFound.into()),
        }
    }

    /// The length of an open file.
    pub fn length(&self, file: u32) -> io::Result<u64>
        requires { file < 4 }
    {
        Ok(self.get(file)?.metadata()?.len())
    }

    /// One read of an open file.
    pub fn read_at(&self, file: u32, at: u64, into: &mut [u8]) -> io::Result<usize>
        requires { file < 4 }
        ensures { IfOk result (λ count. count ≤ length into.new) }
    {
        self.get(file)?.read_at(into, at)
    }

    /// One write of an open file, of some of the bytes.
    pub fn write_at(&self, file: u32, at: u64, bytes: &[u8]) -> io::Result<usize>
        requires { file < 4 }
        ensures some { IfOk result (λ count. 0 < count) }
        ensures bound { IfOk result (λ count. count ≤ length bytes.now) }
    {
        taken(self.get(file)?.write_at(bytes, at)?)
    }

    /// Syncs an open file.
    pub fn sync(&self, file: u32) -> io::Result<()>
        requires { file < 4 }
    {
        self.get(file)?.sync_all()
    }
}
