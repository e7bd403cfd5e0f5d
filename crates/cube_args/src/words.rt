//! The arguments after the program's name, and the number of pages that they let the cache hold.
ghost use Rattle.std.specs.Prelude.{◌≡◌, ◌≤◌, IfErr, IfOk, OnOk, map, string_bytes};
ghost use Rattle.clap.specs.Simple.{app_of};
ghost use Rattle.cube_args.specs.Words.{AreValid, IsCapacity, cache_app};

use clap::builder::ValueParser;
use clap::error::ErrorKind;
use clap::{Arg, ArgAction, Command};
use std::alloc::{AllocError, Global};

/// Why the arguments give no capacity.
#[derive(Clone, Copy, Debug, PartialEq, Eq)]
pub enum WordsStop {
    /// There is another option or argument, the option is given twice, or its value is not a number from 0 to 4096.
    Usage,
    /// Out of memory.
    Memory,
}

/// The number of pages that the cache may hold, by the arguments after the program's name: N of `--cache N` or `--cache=N`, and 64
/// without the option. `WordsStop::Usage` is returned only for arguments that the program does not accept, `WordsStop::Memory` for
/// any.
pub fn cache_of(alloc: Global, words: &[String]) -> Result<u32, WordsStop>
    ensures valid { OnOk result (AreValid (map string_bytes words.now)) }
    ensures value { IfOk result (IsCapacity (map string_bytes words.now)) }
    ensures within { IfOk result (λ pages. pages ≤ 4096) }

    ensures usage { IfErr result (λ stop. stop ≡ WordsStop.Usage → ¬ (AreValid (map string_bytes words.now))) }
{
    let Ok(command) = cache_command(alloc) else {
        return Err(WordsStop::Memory);
    };
    match command.try_get_matches_from(words) {
        Ok(matches) => match matches.get_one::<u32>("cache") {
            Some(pages) => Ok(pages),
            // The option has a default value, and a `u32` holds every number that it accepts.
            None => unreachable!(),
        },
        Err(error) if error.kind() == ErrorKind::OutOfMemory => Err(WordsStop::Memory),
        Err(_) => Err(WordsStop::Usage),
    }
}

/// The command with this option only. Its help and version flags are off, so they are refused like any other option.
fn cache_command<'a>(alloc: Global) -> Result<Command<'a>, AllocError>
    ensures command { IfOk result (λ command. app_of command ≡ cache_app) }
{
    let cache = Arg::new(alloc, "cache")
        .long("cache")
        .action(ArgAction::Set)
        .value_parser(ValueParser::Signed(0, 4096))
        .default_value("64");
    Command::new(alloc, "cubetree")
        .no_binary_name(true)
        .disable_help_flag(true)
        .disable_version_flag(true)
        .arg(cache)
}
