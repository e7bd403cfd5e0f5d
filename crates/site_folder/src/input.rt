//! The source over a reader.
ghost use Rattle.std.specs.Prelude.{length};

use crate::reader::Reader;
use site_core::{Fault, Source};

/// The bytes of a reader, one read for each pull, with the faults that it counts.
#[derive(Drop)]
pub struct Input<R> {
    reader: R,
}

impl<R> Input<R> {
    /// A reader that has not been called yet. Does not allocate.
    pub fn new(reader: R) -> Self {
        Input { reader }
    }
}

impl<R: Reader> Source for Input<R> {
    ghost tells = { R.tells };

    ghost left = { λ s. R.left s.reader };

    ghost faults = { λ s. R.faults s.reader };

    ghost pulls = { λ s. R.reads s.reader };

    ghost ends = { λ s. R.ends s.reader };

    fn pull(&mut self, into: &mut [u8]) -> Result<usize, Fault> {
        match self.reader.read(into) {
            Ok(count) => Ok(count),
            Err(_) => Err(Fault),
        }
    }
}
