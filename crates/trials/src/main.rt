//! Trials: scenarios from standard input, carried out over files in memory.
#![tactic(auto)]

mod warehouse;

use fact_model::Memory;
use std::io;
use std::io::{BufRead, BufReader, Print};
use trial_lang::Trial;
use warehouse::Warehouse;

fn main(rt: HostRuntime) -> io::Result<()> {
    let alloc = rt.alloc();
    let mut trial = Trial::new(alloc, Warehouse)?;
    for line in BufReader::new(alloc, rt.reader())?.lines(alloc) {
        let mut out = String::new(alloc);
        had_memory(trial.line(line?.as_str(), &mut out))?;
        rt.print(out.as_str())?;
    }
    let mut out = String::new(alloc);
    had_memory(trial.end(&mut out))?;
    rt.print(out.as_str())
}

fn had_memory(outcome: Result<(), Memory>) -> io::Result<()> {
    match outcome {
        Ok(()) => Ok(()),
        Err(Memory) => Err(io::ErrorKind::OutOfMemory.into()),
    }
}
