//! A source over bytes in memory of which no pull fails.
ghost use Rattle.std.specs.Prelude.{◌≡◌, ◌<◌, ◌≤◌, true, length, IsOk, IfOk};
ghost use Rattle.site_core.specs.Pull.{Gives};
ghost use Rattle.site_mem.specs.Source.{pulled};

use fact_model::Text;
use site_core::{Fault, Source};
use site_mem::give;

/// Bytes in pieces of at most a given length. No pull fails, and it counts none.
#[derive(Drop)]
pub struct SureSource {
    bytes: Text,
    taken: usize,
    piece: usize,
    ghost some: { 0 < piece },
}

impl SureSource {
    ghost use Rattle.test_sites.specs.SureSource.{sure_left, sure_piece};

    /// These bytes, at most `piece` of them a pull. It takes no memory.
    pub fn new(bytes: Text, piece: usize) -> SureSource
        requires { 0 < piece }
        ensures left { sure_left result ≡ bytes }
        ensures piece { sure_piece result ≡ piece }
    {
        SureSource {
            bytes,
            taken: 0,
            piece,
        }
    }
}

impl Source for SureSource {
    ghost use Rattle.test_sites.specs.SureSource.{sure_left, sure_piece};

    ghost tells = { true };

    ghost left = { λ s. sure_left s };

    ghost faults = { λ _. 0 };

    ghost pulls = { λ _. 0 };

    ghost ends = { λ _. 0 };

    fn pull(&mut self, into: &mut [u8]) -> Result<usize, Fault>
        requires { 0 < length into.old }
        ensures bound { IfOk result (λ count. count ≤ length into.new) }
        ensures bytes { IfOk result
            (λ count. Gives (sure_left self.old) (sure_left self.new) count into.new) }
        ensures count { IfOk result
            (λ count. count ≡ pulled (sure_piece self.old) (length into.old) (sure_left self.old)) }
        ensures sure { IsOk result }
        ensures piece { sure_piece self.new ≡ sure_piece self.old }
    {
        Ok(give(self.bytes.as_bytes(), &mut self.taken, self.piece, into))
    }
}
