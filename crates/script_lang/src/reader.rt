//! The open block, and the line that has begun.
ghost use Rattle.std.specs.Prelude.{◌≡◌, ◌++◌, ◌==◌, [], IfOk, IfSome, OnOk, OnErr, is_some, length, take, None};
ghost use Rattle.script_lang.specs.Script.{after_line, after_saying, command_with, KeepsLimit, IsWithin, SaysNoBlock};
ghost use Rattle.script_lang.specs.Place.{block_in, most, IsShort};
ghost use Rattle.script_lang.specs.Reading.{GoesOnAs};

use crate::command::{Block, Command};
use crate::said::{LONGEST_LINE, Opening, Said, is_end, said_by};
use fact_model::bytes::front;
use fact_model::{Memory, Text};
use std::alloc::Global;
use std::marker::Model;
use std::mem;

/// The greatest length of a block, in bytes.
const LONGEST_BLOCK: usize = 67_108_864;

/// A line of at least this many bytes ends no block.
const ENDS_NO_BLOCK: usize = 5;

/// Which block is open.
#[derive(Drop)]
pub enum Inside {
    Nothing,
    Block(Opening),
    LongBlock(Opening),
}

/// The current place in a script.
#[derive(Drop)]
pub struct Reader {
    inside: Inside,
    // The whole lines of the block, unless it is too long; from `start` on, the line that has begun. With one buffer for
    // both, only one step at the end of a line can fail.
    text: Vec<u8>,
    start: usize,
}

impl Model for Reader {
    ghost use Rattle.script_lang.specs.Place.{Place, place_in, IsReader};

    ghost Value = { Place };

    ghost view = { λ r. place_in r.inside r.start r.text.items };

    ghost invariant = { λ r. IsReader r.inside r.start r.text.items };
}

impl Reader {
    /// No block is open, and no line has begun.
    pub fn new(alloc: Global) -> Reader
        ensures { result ≡ record { block = None; line = [] } }
    {
        Reader {
            inside: Inside::Nothing,
            text: Vec::new(alloc),
            start: 0,
        }
    }

    /// Appends bytes to the line. Of a line that is too long, it keeps only enough to know that.
    pub fn extend(&mut self, bytes: &[u8]) -> Result<(), Memory>
        ensures ok { OnOk result (GoesOnAs self.new (record { block = self.old.block; line = self.old.line ++ bytes.now })) }
        ensures short { IsShort self.new }
        ensures err { OnErr result (self.new ≡ self.old) }
    {
        let room = most(&self.inside).saturating_sub(self.text.len());
        Ok(self.text.extend_from_slice(front(bytes, room))?)
    }

    /// Whether no line has begun.
    pub fn is_between(&self) -> bool
        ensures { result ≡ (length self.now.line == 0) }
    {
        self.start == self.text.len()
    }

    /// Ends the line, and returns the command that ends with it.
    pub fn end_line(&mut self, alloc: Global) -> Result<Option<Command>, Memory>
        ensures command { IfOk result (λ command. command ≡ (after_line self.old.block self.old.line).0) }
        ensures fits { IfOk result (λ command. IfSome command KeepsLimit) }
        ensures ok { OnOk result (self.new ≡ record { block = (after_line self.old.block self.old.line).1; line = [] }) }
        ensures short { IsShort self.new }
        ensures err { OnErr result (self.new ≡ self.old) }
    {
        match mem::replace(&mut self.inside, Inside::Nothing) {
            Inside::Nothing => {
                let (command, inside) = follow(said_by(alloc, self.text.as_slice())?);
                self.text.clear();
                self.inside = inside;
                Ok(command)
            }
            Inside::Block(opening) => {
                if is_end(&self.text[self.start..]) {
                    let text = take_front(alloc, &mut self.text, self.start);
                    self.start = 0;
                    return Ok(Some(command_with(opening, Block::Whole(text))));
                }
                if self.text.push(b'\n').is_err() {
                    self.inside = Inside::Block(opening);
                    return Err(Memory);
                }
                if self.text.len() > LONGEST_BLOCK {
                    self.text.clear();
                    self.inside = Inside::LongBlock(opening);
                    self.start = 0;
                    return Ok(None);
                }
                self.inside = Inside::Block(opening);
                self.start = self.text.len();
                Ok(None)
            }
            Inside::LongBlock(opening) => {
                let ends = is_end(self.text.as_slice());
                self.text.clear();
                if !ends {
                    self.inside = Inside::LongBlock(opening);
                    return Ok(None);
                }
                Ok(Some(command_with(opening, Block::Long)))
            }
        }
    }

    /// Discards the block that is open at the end of the script, and returns whether there was one.
    pub fn drop_block(&mut self) -> bool
        ensures was { result ≡ is_some self.old.block }
        ensures after { self.new ≡ record { block = None; line = [] } }
    {
        let was = !matches!(self.inside, Inside::Nothing);
        self.inside = Inside::Nothing;
        self.text.clear();
        self.start = 0;
        was
    }
}

/// The most bytes that are kept. With this many bytes the line is too long for a command, or it makes its block too long.
fn most(inside: &Inside) -> usize
    ensures { result ≡ most (block_in inside.now 0 []) }
{
    match inside {
        Inside::Nothing => LONGEST_LINE + 1,
        Inside::Block(_) => LONGEST_BLOCK + ENDS_NO_BLOCK,
        Inside::LongBlock(_) => ENDS_NO_BLOCK,
    }
}

/// The command of a line, and the block that is open after it.
fn follow(said: Said) -> (Option<Command>, Inside)
    requires { SaysNoBlock said }
    ensures follows { (result.0, block_in result.1 0 []) ≡ after_saying said }
    ensures fits { IfSome result.0 KeepsLimit }
{
    match said {
        Said::Nothing => (None, Inside::Nothing),
        Said::Opens(opening) => (None, Inside::Block(opening)),
        Said::Says(command) => (Some(command), Inside::Nothing),
    }
}

/// Takes the first `count` bytes of a buffer, and leaves it empty.
fn take_front(alloc: Global, buffer: &mut Vec<u8>, count: usize) -> Text
    ensures taken { result ≡ take count buffer.old.items }
    ensures after { buffer.new.items ≡ [] }
{
    buffer.truncate(count);
    Text::from_vec(mem::replace(buffer, Vec::new(alloc)))
}

/// The command of a block.
fn command_with(opening: Opening, block: Block) -> Command
    requires { IsWithin block }
    ensures command { result ≡ command_with opening block }
    ensures fits { KeepsLimit result }
{
    match opening {
        Opening::Schema => Command::Schema(block),
        Opening::Load => Command::Load(block),
        Opening::Numbered(number) => Command::LoadNumbered { number, block },
        Opening::Begin => Command::Begin(block),
        Opening::Level { name, attr } => Command::Level { name, attr, block },
    }
}
