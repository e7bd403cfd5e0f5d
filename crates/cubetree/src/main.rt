//! The program: a script from standard input, the replies to standard output, the files in the current folder.
#![tactic(auto)]

mod words;

use cube_shell::{Status, run};
use site_folder::{FolderSite, Input};
use site_host::{CurrentFolder, StandardInput};
use std::io;
use std::io::Print;
use std::process::ExitCode;
use std::random::RandomSource;
use text_hash::Seed;
use words::{fault_of_words, words};

/// Writes what went wrong to standard error.
fn report(rt: &HostRuntime, status: Status) -> io::Result<()> {
    match status {
        Status::Done => Ok(()),
        Status::Usage => rt.eprintln("cubetree: usage: cubetree [--cache N]"),
        Status::Input => rt.eprintln("cubetree: input fault"),
        Status::Disk => rt.eprintln("cubetree: disk fault"),
        Status::Output => rt.eprintln("cubetree: output fault"),
        Status::Damaged { file, offset } => {
            rt.eprintln(format_args!("cubetree: damaged file {file} at {offset}"))
        }
        Status::Memory => rt.eprintln("cubetree: out of memory"),
        Status::TooLong => rt.eprintln("cubetree: script too long"),
    }
}

/// A random seed for this run. If the system gives no bytes, it is a fixed one, and texts can then be chosen to share a
/// hash.
fn drawn_seed(rt: &HostRuntime) -> Seed {
    let mut bytes = [0; 16];
    let _ = rt.fill_bytes(&mut bytes);
    Seed::new(u128::from_le_bytes(bytes))
}

/// Runs the script, if the words of the command line are texts.
fn run_here(rt: &HostRuntime) -> Status {
    match words(rt) {
        Ok(words) => run(
            rt.alloc(),
            drawn_seed(rt),
            &words,
            &mut Input::new(StandardInput::new(rt.stdin())),
            &mut FolderSite::new(CurrentFolder::new(rt)),
        ),
        Err(error) => fault_of_words(&error),
    }
}

fn main(rt: HostRuntime) -> ExitCode {
    let status = run_here(&rt);
    let _ = report(&rt, status);
    ExitCode::from(status.code())
}
