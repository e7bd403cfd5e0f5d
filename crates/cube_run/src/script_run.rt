//! A run, up to what ended it.
ghost use Rattle.std.specs.Prelude.{◌≤◌, ◌^◌, map, string_bytes};
ghost use Rattle.cube_run.specs.Ends.{ended};
ghost use Rattle.cube_run.specs.Runs.{RunsScript};

use crate::exit::Status;
use crate::serve::serve;
use cube_args::cache_of;
use cube_session::Session;
use site_core::{Site, Source};
use std::alloc::Global;
use text_hash::Seed;

/// Runs a script within a limit of bytes, or tells what ended the run: the words are read, the files opened, and the script served.
pub fn attempt<S: Source, T: Site>(
    alloc: Global,
    seed: Seed,
    words: &[String],
    source: &mut S,
    site: &mut T,
    limit: u64,
) -> Result<(), Status>
    requires { limit ≤ 2 ^ 30 }
    ensures runs { RunsScript S.Source T.Site (map string_bytes words.now) limit source.old source.new site.old site.new (ended result) }
{
    let cache = cache_of(alloc, words)?;
    let mut session = Session::start(alloc, seed, site, cache)?;
    serve(alloc, &mut session, source, site, limit)
}
