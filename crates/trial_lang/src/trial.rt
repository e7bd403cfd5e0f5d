//! The state of a trial, and its commands.
ghost use Rattle.std.specs.Prelude.{◌<◌};

use crate::block::{push_line, push_text};
use crate::changed::{each_byte, each_place};
use crate::each::{Kind, each, each_stop};
use crate::files::{PAGE, copies, page_of, put, set_length, with_file};
use crate::print::push_ran;
use crate::program::Program;
use crate::request::Request;
use crate::scene::Scene;
use crate::show::{calls, cost, differing, dump};
use crate::sweep::sweep;
use crate::trouble::Trouble;
use crate::words::Words;
use fact_model::{Memory, Text};
use site_mem::{Call, MemorySite};
use std::alloc::{AllocError, Global};
use std::mem;

/// Files saved under a name.
#[derive(Drop)]
struct Kept {
    name: String,
    files: [Text; 4],
}

/// A command that waits for the lines of its block.
#[derive(Drop)]
struct Waiting {
    line: String,
    block: Vec<u8>,
    has_block: bool,
}

/// The number of calls before the last run, and the bytes of its script that it pulled.
#[derive(Clone, Copy)]
struct LastRun {
    calls: usize,
    pulled: u64,
}

const NO_RUN: LastRun = LastRun {
    calls: 0,
    pulled: 0,
};

/// The scene, the last run, the saved files, and the waiting command.
#[derive(Drop)]
pub struct Trial<P: Program> {
    scene: Scene<P>,
    last: LastRun,
    kept: Vec<Kept>,
    waiting: Waiting,
}

impl Waiting {
    fn none(alloc: Global) -> Waiting {
        Waiting {
            line: String::new(alloc),
            block: Vec::new(alloc),
            has_block: false,
        }
    }
}

// A line that is not a command gets an answer that says so.
fn answered(outcome: Result<(), Trouble>, out: &mut String) -> Result<(), Memory> {
    match outcome {
        Ok(()) => Ok(()),
        Err(Trouble::Unclear) => Ok(out.push_str("> this is no command\n")?),
        Err(Trouble::Memory) => Err(Memory),
    }
}

impl<P: Program + Drop> Trial<P> {
    /// A trial of this program: with empty files, an empty script, and `status` as the look.
    pub fn new(alloc: Global, program: P) -> Result<Trial<P>, AllocError> {
        Ok(Trial {
            scene: Scene {
                program,
                alloc,
                site: MemorySite::new(alloc),
                script: Vec::new(alloc),
                look: Vec::from_slice(alloc, b"status\n")?,
            },
            last: NO_RUN,
            kept: Vec::new(alloc),
            waiting: Waiting::none(alloc),
        })
    }

    /// Takes a line and prints it again, unless it is an answer. A line of a block is kept for its command; before any other line,
    /// the waiting command is carried out.
    pub fn line(&mut self, line: &str, out: &mut String) -> Result<(), Memory> {
        if line.starts_with('>') {
            return Ok(());
        }
        if let Some(text) = line.strip_prefix("  ") {
            writeln!(out, "{line}")?;
            self.waiting.has_block = true;
            return answered(push_line(&mut self.waiting.block, text), out);
        }
        self.end(out)?;
        if !line.starts_with('#') {
            self.waiting.line.push_str(line)?;
        }
        writeln!(out, "{line}")?;
        Ok(())
    }

    /// Carries out the waiting command.
    pub fn end(&mut self, out: &mut String) -> Result<(), Memory> {
        let mut command = mem::replace(&mut self.waiting, Waiting::none(self.scene.alloc));
        answered(self.obey(&mut command, out), out)
    }

    // Carries out a command. If its block is a script, the scene keeps it.
    fn obey(&mut self, command: &mut Waiting, out: &mut String) -> Result<(), Trouble> {
        let Waiting {
            line,
            block,
            has_block,
        } = command;
        let mut words = Words::of(line.as_str());
        let verb = words.next();
        match verb {
            "" => {}
            "look" => mem::swap(&mut self.scene.look, block),
            "put" => return self.put(words, block),
            "exchange" => return self.exchange(words),
            "length" => return self.set_length(words),
            "new" | "reopen" | "take" => return self.restart(verb, words),
            "keep" => return self.keep(words),
            "same" | "calls" | "cost" | "pulled" | "dump" => return self.show(verb, words, out),
            _ => {
                if *has_block {
                    mem::swap(&mut self.scene.script, block);
                }
                return self.run_by(verb, words, out);
            }
        }
        Ok(())
    }

    fn run_by(&mut self, verb: &str, words: Words<'_>, out: &mut String) -> Result<(), Trouble> {
        match verb {
            "script" => Ok(()),
            "run" => self.run(words, out),
            "each-byte" | "each-place" => self.look_by(verb, words, out),
            _ => self.each(verb, words, out),
        }
    }

    fn run(&mut self, words: Words<'_>, out: &mut String) -> Result<(), Trouble> {
        let Scene {
            program,
            alloc,
            site,
            script,
            ..
        } = &mut self.scene;
        let calls = site.calls().len();
        let told = site.told().len();
        let ran = Request::read(*alloc, words)?.carry_out(program, *alloc, script, site)?;
        self.last = LastRun {
            calls,
            pulled: ran.pulled,
        };
        push_ran(out, ran.ended, site.told().get(told..).unwrap_or(&[]))?;
        Ok(())
    }

    fn each(&self, verb: &str, mut words: Words<'_>, out: &mut String) -> Result<(), Trouble> {
        let scene = &self.scene;
        let kind = match verb {
            "each-fault" => Kind::Fault,
            "each-pull" => Kind::Pull,
            "each-piece" => Kind::Piece,
            "each-stop" => return each_stop(scene, &Request::read(scene.alloc, words)?, out),
            "sweep" => {
                let seed = words.number()?;
                let images = words.number()?;
                let request = Request::read(scene.alloc, words)?;
                return sweep(scene, &request, seed, images, out);
            }
            _ => return Err(Trouble::Unclear),
        };
        each(scene, kind, &mut Request::read(scene.alloc, words)?, out)
    }

    fn look_by(&self, verb: &str, mut words: Words<'_>, out: &mut String) -> Result<(), Trouble> {
        let (file, first) = words.file_and_number()?;
        if verb == "each-byte" {
            return each_byte(&self.scene, file, first, out);
        }
        each_place(&self.scene, file, first, words.number()?, out)
    }

    fn begin_with(&mut self, files: [Text; 4]) -> Result<(), Trouble> {
        self.scene.site = MemorySite::from_files(self.scene.alloc, files)?;
        self.last = NO_RUN;
        Ok(())
    }

    // `new`, `reopen`, `reopen IMAGE` or `take NAME`.
    fn restart(&mut self, verb: &str, words: Words<'_>) -> Result<(), Trouble> {
        let files = self.files_by(verb, words)?;
        self.begin_with(files)
    }

    fn files_by(&self, verb: &str, mut words: Words<'_>) -> Result<[Text; 4], Trouble> {
        let Scene { alloc, site, .. } = &self.scene;
        Ok(match verb {
            "new" => MemorySite::new(*alloc).image(*alloc, 0)?,
            "reopen" => site.image(*alloc, words.number_or(1)?)?,
            _ => copies(*alloc, self.kept(words.rest())?)?,
        })
    }

    fn keep(&mut self, words: Words<'_>) -> Result<(), Trouble> {
        let alloc = self.scene.alloc;
        let name = String::from_str(alloc, words.rest())?;
        let files = self.scene.site.image(alloc, 0)?;
        self.kept.push(Kept { name, files })?;
        Ok(())
    }

    fn kept(&self, name: &str) -> Result<&[Text; 4], Trouble> {
        for kept in self.kept.iter().rev() {
            if kept.name.as_str() == name {
                return Ok(&kept.files);
            }
        }
        Err(Trouble::Unclear)
    }

    // `put FILE PLACE TEXT`, or with a block instead of the text.
    fn put(&mut self, mut words: Words<'_>, block: &[u8]) -> Result<(), Trouble> {
        let (file, place) = words.file_and_number()?;
        let mut given = Vec::new(self.scene.alloc);
        push_text(&mut given, words.rest(), 0)?;
        given.extend_from_slice(block)?;
        self.put_bytes(file, place, &given)
    }

    // `exchange FILE PAGE FILE PAGE`.
    fn exchange(&mut self, mut words: Words<'_>) -> Result<(), Trouble> {
        let (first, page) = words.file_and_number()?;
        let at = page.saturating_mul(PAGE);
        let (second, page) = words.file_and_number()?;
        let to = page.saturating_mul(PAGE);
        let one = self.page(first, at)?;
        let other = self.page(second, to)?;
        self.put_bytes(first, at, &other)?;
        self.put_bytes(second, to, &one)
    }

    fn page(&self, file: u32, at: u64) -> Result<Vec<u8>, AllocError>
        requires { file < 4 }
    {
        Vec::from_slice(self.scene.alloc, page_of(self.scene.site.file(file), at))
    }

    fn put_bytes(&mut self, file: u32, place: u64, given: &[u8]) -> Result<(), Trouble>
        requires { file < 4 }
    {
        let Scene { alloc, site, .. } = &self.scene;
        let mut bytes = Vec::from_slice(*alloc, site.file(file))?;
        put(&mut bytes, place, given)?;
        let files = with_file(*alloc, site, file, bytes)?;
        self.begin_with(files)
    }

    // `length FILE LENGTH`.
    fn set_length(&mut self, mut words: Words<'_>) -> Result<(), Trouble> {
        let Scene { alloc, site, .. } = &self.scene;
        let (file, length) = words.file_and_number()?;
        let mut bytes = Vec::from_slice(*alloc, site.file(file))?;
        set_length(&mut bytes, length)?;
        let files = with_file(*alloc, site, file, bytes)?;
        self.begin_with(files)
    }

    fn last_calls(&self) -> &[Call] {
        self.scene
            .site
            .calls()
            .get(self.last.calls..)
            .unwrap_or(&[])
    }

    // `same NAME`, `cost`, `pulled`, `calls` or `dump FILE`. The last two may be followed by a range.
    fn show(&self, verb: &str, mut words: Words<'_>, out: &mut String) -> Result<(), Trouble> {
        let site = &self.scene.site;
        match verb {
            "same" => differing(site, self.kept(words.rest())?, out)?,
            "cost" => cost(self.last_calls(), out)?,
            "pulled" => writeln!(out, "> {} bytes", self.last.pulled)?,
            "calls" => {
                let (first, last) = words.range()?;
                calls(self.last_calls(), first, last, out)?;
            }
            _ => {
                let file = words.file()?;
                let (first, last) = words.range()?;
                dump(site.file(file), first, last, out)?;
            }
        }
        Ok(())
    }
}
