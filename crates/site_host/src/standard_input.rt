//! Standard input, in single calls of std.
ghost use Rattle.std.specs.Prelude.{◌≡◌, false, []};

use crate::faults::counted;
use site_folder::Reader;
use std::io;
use std::io::Read;

/// A reader of std, with the count of its faults, which begins at 0. It reports nothing about its bytes, and counts no
/// reads.
#[derive(Drop)]
pub struct StandardInput<R> {
    reader: R,
    faults: u64,
}

impl<R> StandardInput<R> {
    /// A reader that has not been called yet.
    pub fn new(reader: R) -> StandardInput<R>
        ensures { result.faults ≡ 0 }
    {
        StandardInput { reader, faults: 0 }
    }
}

impl<R: Read> Reader for StandardInput<R> {
    ghost tells = { false };

    ghost left = { λ _. [] };

    ghost faults = { λ s. s.faults };

    ghost reads = { λ _. 0 };

    ghost ends = { λ _. 0 };

    fn read(&mut self, into: &mut [u8]) -> io::Result<usize> {
        counted(self.reader.read(into), &mut self.faults)
    }
}
