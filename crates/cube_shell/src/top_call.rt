//! The top call, whose contract is the headline.
ghost use Rattle.std.specs.Prelude.{◌≤◌, ◌^◌, map, string_bytes};
ghost use Rattle.cube_run.specs.Runs.{RunsScript};

use cube_run::{Status, attempt};
use site_core::{Site, Source};
use std::alloc::Global;
use text_hash::Seed;

/// The most bytes of a script.
const SCRIPT_LIMIT: u64 = 1 << 30;

/// Runs a script of at most 2^30 bytes: opens the files, pulls the script from the source, carries out its commands, and prints
/// the reply to each. It is `run_within` with that limit. Hashes of texts start from the seed; no reply depends on it.
pub fn run<S: Source, T: Site>(
    alloc: Global,
    seed: Seed,
    words: &[String],
    source: &mut S,
    site: &mut T,
) -> Status
    ensures runs { RunsScript S.Source T.Site (map string_bytes words.now) (2 ^ 30) source.old source.new site.old site.new result }
{
    run_within(alloc, seed, words, source, site, SCRIPT_LIMIT)
}

/// Runs a script of at most `limit` bytes; the limit is at most 2^30. `words` are those after the program's name; words that do not give
/// its one option are `Usage`. Then the files are opened, and any damage found is reported before the first pull. The script is pulled
/// in pieces of at most 65,536 bytes, and at most one byte past the limit. After each pull every command that is complete is carried
/// out, and its reply printed. The end is asked for once. At `Done` each command was replied to; any other status ends the run at once.
/// A batch that is pending at the end is dropped.
pub fn run_within<S: Source, T: Site>(
    alloc: Global,
    seed: Seed,
    words: &[String],
    source: &mut S,
    site: &mut T,
    limit: u64,
) -> Status
    requires { limit ≤ 2 ^ 30 }
    ensures runs { RunsScript S.Source T.Site (map string_bytes words.now) limit source.old source.new site.old site.new result }
{
    match attempt(alloc, seed, words, source, site, limit) {
        Ok(()) => Status::Done,
        Err(status) => status,
    }
}
