//! A run as a trial requests it.

use crate::block::push_text;
use crate::program::{Ended, Program};
use crate::trouble::Trouble;
use crate::words::{Words, number};
use fact_model::{Memory, Text};
use site_mem::{MemorySite, MemorySource};
use std::alloc::Global;
use std::{mem, str};
use test_sites::ShortSite;

/// The most bytes of a script.
pub const MOST: u64 = 1 << 30;

/// The most bytes of a pull, the most bytes of the script, the numbers of the pull and the calls that are to fail, and the arguments
/// of the program. Pulls and calls are counted from the start of the run, from 0.
#[derive(Drop)]
pub struct Request {
    pub pieces: usize,
    pub limit: u64,
    pub fail_pull: Option<u64>,
    pub fail_call: Option<u64>,
    pub stop_after: Option<u64>,
    pub short_read: Option<u64>,
    pub words: Vec<String>,
}

impl Request {
    /// Reads the options of a run: each is a name and a number. The last may be `words`, followed by the arguments.
    pub fn read(alloc: Global, given: Words<'_>) -> Result<Request, Trouble> {
        let (options, words) = given
            .rest()
            .split_once("words ")
            .unwrap_or((given.rest(), ""));
        let mut request = Request {
            pieces: 64,
            limit: MOST,
            fail_pull: None,
            fail_call: None,
            stop_after: None,
            short_read: None,
            words: words_of(alloc, words)?,
        };
        let mut name = None;
        for word in options.split_whitespace() {
            name = match name {
                None => Some(word),
                Some(name) => {
                    request.set(name, number(word)?)?;
                    None
                }
            };
        }
        match name {
            None => Ok(request),
            Some(_) => Err(Trouble::Unclear),
        }
    }

    fn set(&mut self, name: &str, number: u64) -> Result<(), Trouble> {
        match name {
            "pieces" => self.pieces = number as usize,
            "limit" => self.limit = number,
            "fail-pull" => self.fail_pull = Some(number),
            "fail-call" => self.fail_call = Some(number),
            "stop-after" => self.stop_after = Some(number),
            "short-read" => self.short_read = Some(number),
            _ => return Err(Trouble::Unclear),
        }
        Ok(())
    }

    /// Runs a script over a site with a program.
    pub fn carry_out<P: Program>(
        &self,
        program: &P,
        alloc: Global,
        script: &[u8],
        site: &mut MemorySite,
    ) -> Result<Ran, Trouble> {
        let mut source = self.source(alloc, script)?;
        let before = site.calls().len() as u64;
        self.name_faults(site, before)?;
        let short = self.short_read.map(|call| before.saturating_add(call));
        let mut over = ShortSite::new(mem::replace(site, MemorySite::new(alloc)), short);
        let limit = self.limit.min(MOST);
        let ended = program.run(alloc, &self.words, &mut source, &mut over, limit);
        *site = over.into_site();
        let pulled = source.given();
        Ok(Ran { ended, pulled })
    }

    fn source(&self, alloc: Global, script: &[u8]) -> Result<MemorySource, Memory> {
        let mut source = MemorySource::new(Text::from_bytes(alloc, script)?, self.pieces.max(1));
        if let Some(pull) = self.fail_pull {
            source.fail_at(pull);
        }
        Ok(source)
    }

    // Sets which call of a site fails, and from which call on all fail. The site has had `before` calls.
    fn name_faults(&self, site: &mut MemorySite, before: u64) -> Result<(), Memory> {
        if let Some(call) = self.stop_after {
            site.stop_after(before.saturating_add(call));
        }
        match self.fail_call {
            Some(call) => site.fail_at(before.saturating_add(call)),
            None => Ok(()),
        }
    }
}

/// How a run ended, and how many bytes of its script it pulled.
#[derive(Clone, Copy)]
pub struct Ran {
    pub ended: Ended,
    pub pulled: u64,
}

fn words_of(alloc: Global, written: &str) -> Result<Vec<String>, Trouble> {
    let mut words = Vec::new(alloc);
    for word in written.split_whitespace() {
        words.push(word_of(alloc, word)?)?;
    }
    Ok(words)
}

// The argument that is written like this, in the notation of a block's line. A `\` alone is an empty argument.
fn word_of(alloc: Global, written: &str) -> Result<String, Trouble> {
    let mut bytes = Vec::new(alloc);
    push_text(&mut bytes, written.strip_suffix('\\').unwrap_or(written), 0)?;
    match str::from_utf8(&bytes) {
        Ok(word) => Ok(String::from_str(alloc, word)?),
        Err(_) => Err(Trouble::Unclear),
    }
}
