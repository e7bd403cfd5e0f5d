//! The program that trials test.
ghost use Rattle.std.specs.Prelude.{◌≤◌, ◌^◌};

use site_mem::MemorySource;
use std::alloc::Global;
use test_sites::{ShortSite, SureSite, SureSource};

/// How a run ended.
#[derive(Clone, Copy, PartialEq, Eq)]
pub enum Ended {
    /// The script was read to its end.
    Done,
    /// Damage was found at this place of a file.
    Damaged { file: u32, offset: u64 },
    /// It ended early, for this reason.
    Early(&'static str),
}

/// A program that carries out a script, up to a limit of bytes, over four files and an output.
pub trait Program {
    /// Runs with these arguments, over files and a script that may fail.
    fn run(
        &self,
        alloc: Global,
        words: &[String],
        source: &mut MemorySource,
        site: &mut ShortSite,
        limit: u64,
    ) -> Ended
        requires { limit ≤ 2 ^ 30 };

    /// Runs without arguments, over files and a script that never fail.
    fn look(&self, alloc: Global, source: &mut SureSource, site: &mut SureSite, limit: u64) -> Ended
        requires { limit ≤ 2 ^ 30 };
}
