//! The results of looks at files, each named by a letter.

use crate::print::{push_ended, push_joined};
use crate::program::{Ended, Program};
use crate::request::MOST;
use crate::trouble::Trouble;
use fact_model::Text;
use site_mem::MemorySite;
use std::alloc::{AllocError, Global};
use test_sites::{SureSite, SureSource};

/// How a look ended, and what it output.
#[derive(Drop)]
struct Ending {
    ended: Ended,
    told: Vec<u8>,
}

/// The program and the script of the looks, and their endings in order of first appearance.
#[derive(Drop)]
pub struct Endings<'a, P: Program> {
    program: &'a P,
    alloc: Global,
    look: &'a [u8],
    known: Vec<Ending>,
}

impl<'a, P: Program> Endings<'a, P> {
    /// No endings yet.
    pub fn new(program: &'a P, alloc: Global, look: &'a [u8]) -> Endings<'a, P> {
        Endings {
            program,
            alloc,
            look,
            known: Vec::new(alloc),
        }
    }

    /// The allocator.
    pub fn alloc(&self) -> Global {
        self.alloc
    }

    /// The number of the result of a look at these files.
    pub fn look(&mut self, files: [Text; 4]) -> Result<usize, Trouble> {
        let alloc = self.alloc;
        let mut site = SureSite::new(alloc, files);
        let mut source = SureSource::new(Text::from_bytes(alloc, self.look)?, 65_536);
        // A run allocates a buffer for all bytes within its limit, so the limit is the length of the look.
        let limit = (self.look.len() as u64).min(MOST);
        let ended = self.program.look(alloc, &mut source, &mut site, limit);
        self.number(ended, site.told())
    }

    /// The number of the result of a look at one image of a site.
    pub fn look_at(&mut self, site: &MemorySite, choice: u64) -> Result<usize, Trouble> {
        self.look(site.image(self.alloc, choice)?)
    }

    fn number(&mut self, ended: Ended, told: &[u8]) -> Result<usize, Trouble> {
        for (i, known) in self.known.iter().enumerate() {
            if known.ended == ended && known.told.as_slice() == told {
                return Ok(i);
            }
        }
        let told = Vec::from_slice(self.alloc, told)?;
        self.known.push(Ending { ended, told })?;
        Ok(self.known.len().saturating_sub(1))
    }

    /// Prints the letters and what they stand for.
    pub fn print(&self, out: &mut String) -> Result<(), AllocError> {
        for (i, ending) in self.known.iter().enumerate() {
            ending.print(letter(i), out)?;
        }
        Ok(())
    }
}

impl Ending {
    fn print(&self, letter: char, out: &mut String) -> Result<(), AllocError> {
        write!(out, "> {letter}: ")?;
        push_joined(out, &self.told)?;
        if self.ended != Ended::Done {
            if !self.told.is_empty() {
                out.push_str(" | ")?;
            }
            push_ended(out, self.ended)?;
        }
        out.push('\n')
    }
}

/// The letter of a number. There are 26 letters; all numbers above 25 have the last.
pub fn letter(number: usize) -> char {
    match b'a'.checked_add(number.min(25) as u8) {
        Some(byte) => char::from(byte),
        None => '?',
    }
}
