//! The current folder and standard output, in single calls of std.
ghost use Rattle.std.specs.Prelude.{◌≡◌, ◌<◌, ◌≤◌, ℕ, length, IfOk, IsSome, OnOk, false, true};
ghost use Rattle.std.specs.Fs.{new_options, with_create, with_read, with_write};
ghost use Rattle.site_core.specs.Silent.{no_disk, no_left};
ghost use Rattle.site_folder.specs.Names.{file_name};
ghost use Rattle.site_host.specs.Silent.{ledger_of};
ghost use Rattle.site_host.specs.Slots.{file_in};

use crate::faults::{counted, taken};
use crate::open_files::OpenFiles;
use site_folder::Host;
use std::fs::{File, OpenFile, OpenOptions};
use std::io;
use std::io::{ErrorKind, Write};

/// The files `root`, `names`, `side0` and `side1` of the current folder, and standard output, with the counts of their faults, which begin
/// at 0. It reports nothing about their bytes.
#[derive(Drop)]
pub struct CurrentFolder<'a> {
    rt: &'a HostRuntime,
    files: OpenFiles,
    streams: [Option<File>; 3],
    disk_faults: u64,
    told_faults: u64,
}

impl<'a> CurrentFolder<'a> {
    /// The current folder, with no file open yet.
    ///
    /// A process may start with one of its three streams closed, and the next file that is opened then takes its descriptor. So the folder
    /// itself is opened three times before any file, and kept. A read or a write of a stream that was closed is then a fault, since a
    /// folder neither gives nor takes bytes.
    pub fn new(rt: &'a HostRuntime) -> CurrentFolder<'a>
        ensures disk_faults { result.disk_faults ≡ 0 }
        ensures told_faults { result.told_faults ≡ 0 }
    {
        CurrentFolder {
            rt,
            files: OpenFiles::new(),
            streams: [
                File::open(rt, ".").ok(),
                File::open(rt, ".").ok(),
                File::open(rt, ".").ok(),
            ],
            disk_faults: 0,
            told_faults: 0,
        }
    }

    /// Opens a file. If it is not there and `create` is true, it is made.
    fn open_with(&mut self, file: u32, create: bool) -> io::Result<()>
        requires { file < 4 }
        ensures opened { OnOk result (IsSome (file_in self.new.files.files file)) }
        ensures keeps { (g : ℕ) → IsSome (file_in self.old.files.files g) → IsSome (file_in self.new.files.files g) }
        ensures disk_faults { self.new.disk_faults ≡ self.old.disk_faults }
        ensures told_faults { self.new.told_faults ≡ self.old.told_faults }
    {
        let open = options(create).open(self.rt, name_of(file))?;
        self.files.keep(file, open)
    }
}

impl Host for CurrentFolder<'_> {
    ghost tells = { false };

    ghost disk = { λ _. no_disk };

    ghost ledger = { λ h. ledger_of h.files.files };

    ghost disk_faults = { λ h. h.disk_faults };

    ghost told_faults = { λ h. h.told_faults };

    ghost read_now = { λ h tells. no_left tells };

    ghost counts_now = { λ h t files tells. no_left tells };

    ghost only_now = { λ h told files tells. no_left tells };

    ghost stable_now = { λ h tells. no_left tells };

    fn open(&mut self, file: u32) -> io::Result<()> {
        if self.files.has(file) {
            return Ok(());
        }
        match self.open_with(file, false) {
            Err(error) if error.kind() == ErrorKind::NotFound => Err(error),
            outcome => counted(outcome, &mut self.disk_faults),
        }
    }

    fn make(&mut self, file: u32) -> io::Result<()> {
        let outcome = self.open_with(file, true);
        counted(outcome, &mut self.disk_faults)
    }

    fn length(&mut self, file: u32) -> io::Result<u64> {
        counted(self.files.length(file), &mut self.disk_faults)
    }

    fn read_at(&mut self, file: u32, at: u64, into: &mut [u8]) -> io::Result<usize> {
        counted(self.files.read_at(file, at, into), &mut self.disk_faults)
    }

    fn write_at(&mut self, file: u32, at: u64, bytes: &[u8]) -> io::Result<usize> {
        counted(self.files.write_at(file, at, bytes), &mut self.disk_faults)
    }

    fn too_far(&mut self, _at: u64, _count: usize) -> io::Error {
        self.disk_faults = self.disk_faults.saturating_add(1);
        ErrorKind::InvalidInput.into()
    }

    fn sync_file(&mut self, file: u32) -> io::Result<()> {
        counted(self.files.sync(file), &mut self.disk_faults)
    }

    fn sync_folder(&mut self) -> io::Result<()> {
        counted(sync_here(self.rt), &mut self.disk_faults)
    }

    fn put(&mut self, bytes: &[u8]) -> io::Result<usize> {
        counted(write_out(self.rt, bytes), &mut self.told_faults)
    }

    fn flush(&mut self) -> io::Result<()> {
        counted(io::writer(self.rt).flush(), &mut self.told_faults)
    }
}

/// Syncs the current folder.
fn sync_here(rt: &HostRuntime) -> io::Result<()> {
    File::open(rt, ".")?.sync_all()
}

/// One write to standard output, of some of the bytes.
fn write_out(rt: &HostRuntime, bytes: &[u8]) -> io::Result<usize>
    ensures some { IfOk result (λ count. 0 < count) }
    ensures bound { IfOk result (λ count. count ≤ length bytes.now) }
{
    taken(io::writer(rt).write(bytes)?)
}

/// How a file is opened: for reading and writing, with its content kept; `create` makes it if it is not there.
fn options(create: bool) -> OpenOptions
    ensures { result ≡ with_create (with_write (with_read new_options true) true) create }
{
    let mut options = OpenOptions::new();
    options.read(true);
    options.write(true);
    options.create(create);
    options
}

fn name_of(file: u32) -> &'static str
    ensures { result.now ≡ file_name file }
{
    match file {
        0 => "root",
        1 => "names",
        2 => "side0",
        _ => "side1",
    }
}
