//! The program: it reads a schema, a slice and the replies of parts from standard input, and writes the reply of the whole to standard output.
#![tactic(auto)]

mod end;

use end::End;
use fact_model::Memory;
use reply_fold::{Fault, fold};
use reply_text::{refused_schema, refused_slice};
use site_folder::Input;
use site_host::StandardInput;
use std::io::{Print, Write};
use std::process::ExitCode;
use std::{env, io};

/// Whether there are arguments, or they cannot be read.
fn has_words(rt: &HostRuntime) -> bool {
    match env::args(rt) {
        Ok(words) => words.count() > 1,
        Err(_) => true,
    }
}

/// Writes the reply to standard output.
fn tell(rt: &HostRuntime, reply: &[u8]) -> io::Result<()> {
    let mut output = io::writer(rt);
    output.write_all(reply)?;
    output.flush()
}

/// Folds the replies, and writes the reply of the whole.
fn fold_here(rt: &HostRuntime) -> End {
    if has_words(rt) {
        return End::Usage;
    }
    match fold(rt.alloc(), &mut Input::new(StandardInput::new(rt.stdin()))) {
        Ok(reply) => match tell(rt, reply.as_bytes()) {
            Ok(()) => End::Done,
            Err(_) => End::Output,
        },
        Err(fault) => End::Faulty(fault),
    }
}

/// Writes a refusal to standard error, worded as in the reply.
fn report_refusal(rt: &HostRuntime, reply: Result<Vec<u8>, Memory>) -> io::Result<()> {
    let Ok(reply) = reply else {
        return rt.eprintln("cubefold: out of memory");
    };
    let mut errors = rt.stderr();
    errors.write_all(b"cubefold: ")?;
    errors.write_all(&reply)
}

/// Writes why there is no reply to standard error.
fn report_fault(rt: &HostRuntime, fault: Fault) -> io::Result<()> {
    match fault {
        Fault::Heading => rt.eprintln("cubefold: no line `end`"),
        Fault::Schema(refusal) => report_refusal(rt, refused_schema(rt.alloc(), refusal)),
        Fault::Slice(refusal) => report_refusal(rt, refused_slice(rt.alloc(), refusal)),
        Fault::Cut => rt.eprintln("cubefold: reply cut off"),
        Fault::Nothing => rt.eprintln("cubefold: no reply"),
        Fault::Record(record) => {
            rt.eprintln(format_args!("cubefold: record {record} is no row and no end"))
        }
        Fault::Differs(record) => {
            rt.eprintln(format_args!("cubefold: record {record} is another reply"))
        }
        Fault::Sum => rt.eprintln("cubefold: sum too great"),
        Fault::Input => rt.eprintln("cubefold: input fault"),
        Fault::Memory => rt.eprintln("cubefold: out of memory"),
    }
}

/// Writes what went wrong to standard error.
fn report(rt: &HostRuntime, end: End) -> io::Result<()> {
    match end {
        End::Done => Ok(()),
        End::Usage => rt.eprintln("cubefold: usage: cubefold"),
        End::Output => rt.eprintln("cubefold: output fault"),
        End::Faulty(fault) => report_fault(rt, fault),
    }
}

fn main(rt: HostRuntime) -> ExitCode {
    let end = fold_here(&rt);
    let _ = report(&rt, end);
    ExitCode::from(end.code())
}
