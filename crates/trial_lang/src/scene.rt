//! The parts of a run.

use crate::endings::Endings;
use crate::program::Program;
use crate::request::{Ran, Request};
use crate::rows::Rows;
use crate::trouble::Trouble;
use site_mem::MemorySite;
use std::alloc::Global;

/// The program, the files, the script to run, and the script that looks at the result.
#[derive(Drop)]
pub struct Scene<P: Program> {
    pub program: P,
    pub alloc: Global,
    pub site: MemorySite,
    pub script: Vec<u8>,
    pub look: Vec<u8>,
}

impl<P: Program> Scene<P> {
    /// Makes a run over copies of the files as a read gives them. All of them are stable.
    pub fn run(&self, request: &Request) -> Result<(MemorySite, Ran), Trouble> {
        let files = self.site.image(self.alloc, 0)?;
        let mut site = MemorySite::from_files(self.alloc, files)?;
        let ran = request.carry_out(&self.program, self.alloc, &self.script, &mut site)?;
        Ok((site, ran))
    }

    /// No endings of looks yet.
    pub fn endings(&self) -> Endings<'_, P> {
        Endings::new(&self.program, self.alloc, &self.look)
    }

    /// No rows that name endings yet.
    pub fn rows(&self) -> Rows<'_, P> {
        Rows::new(self.endings())
    }
}
