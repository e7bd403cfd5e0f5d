//! The commands of a script that is fed in pieces.
ghost use Rattle.std.specs.Prelude.{◌≡◌, ◌==◌, ◌<◌, ◌≤◌, [], true, false, IfOk, IfSome, OnOk, OnErr, length, take, vec_len, None};
ghost use Rattle.script_lang.specs.Script.{KeepsLimit};
ghost use Rattle.script_lang.specs.Place.{IsShort};
ghost use Rattle.script_lang.specs.Reading.{nothing_read, with_more, Gives, IsFirstReady, IsFirstWhole, StillToCome, StillWhole, StillReady, ready};

use crate::command::Command;
use crate::reader::Reader;
use fact_model::Memory;
use fact_model::bytes::{between, front, place_of};
use std::alloc::Global;
use std::marker::Model;
use std::mem;

/// A script that is fed in pieces and returns its commands one after the other. Each byte is read once, unless memory runs
/// out. Of a line or a block that is too long, it keeps only enough to know that.
#[derive(Drop)]
pub struct Lines {
    alloc: Global,
    over: bool,
    reader: Reader,
    // The buffer that was fed last. Its bytes before `end` count; those before `at` have been read.
    fed: Vec<u8>,
    at: usize,
    end: usize,
}

impl Model for Lines {
    ghost use Rattle.script_lang.specs.Reading.{Reading, unread_in, IsReading};

    ghost Value = { Reading };

    ghost view = { λ l. record { over = l.over; place = l.reader; rest = unread_in l.at l.end l.fed.items } };

    ghost invariant = { λ l. IsReading l.at l.end l.fed.items l.reader };
}

impl Lines {
    /// A script with nothing read. Does not allocate.
    pub fn new(alloc: Global) -> Lines
        ensures { result ≡ nothing_read }
    {
        Lines {
            alloc,
            over: false,
            reader: Reader::new(alloc),
            fed: Vec::new(alloc),
            at: 0,
            end: 0,
        }
    }

    /// Appends bytes of the script. After `Memory` nothing is appended, and nothing has changed.
    pub fn feed(&mut self, piece: &[u8]) -> Result<(), Memory>
        requires { self.old.over ≡ false }
        ensures ok { OnOk result (self.new ≡ with_more self.old piece.now) }
        ensures err { OnErr result (self.new ≡ self.old) }
    {
        self.forget_read();
        self.fed.truncate(self.end);
        self.fed.extend_from_slice(piece)?;
        self.end = self.fed.len();
        Ok(())
    }

    /// Goes back to the start of the buffer once all bytes that count have been read.
    fn forget_read(&mut self)
        ensures { self.new ≡ self.old }
    {
        if self.at == self.end {
            self.at = 0;
            self.end = 0;
        }
    }

    /// Appends the first `count` bytes of a buffer, like `feed`, but keeps the buffer itself and copies no bytes. Does not
    /// allocate.
    pub fn take_over(&mut self, buffer: Vec<u8>, count: usize)
        requires goes_on { self.old.over ≡ false }
        requires read { self.old.rest ≡ [] }
        requires within { count ≤ vec_len buffer }
        ensures { self.new ≡ with_more self.old (take count buffer.items) }
    {
        self.fed = buffer;
        self.at = 0;
        self.end = count;
    }

    /// Returns the buffer that was taken over or fed last, so that the next piece can reuse it, or an empty one if there is
    /// none. Does not allocate.
    pub fn give_back(&mut self) -> Vec<u8>
        requires read { self.old.rest ≡ [] }
        ensures { self.new ≡ self.old }
    {
        self.at = 0;
        self.end = 0;
        mem::replace(&mut self.fed, Vec::new(self.alloc))
    }

    /// Marks the end of the script. Does not allocate.
    pub fn end(&mut self)
        ensures { self.new ≡ record { over = true; place = self.old.place; rest = self.old.rest } }
    {
        self.over = true;
    }

    /// Returns the next command. None exactly if the bytes fed hold no further whole command. After `Memory` no
    /// command is lost: the same commands are still to come.
    pub fn next_command(&mut self) -> Result<Option<Command>, Memory>
        ensures over { self.new.over ≡ self.old.over }
        ensures given { IfOk result (Gives self.old self.new) }
        ensures fits { IfOk result (λ command. IfSome command KeepsLimit) }
        ensures ready { IfOk result (IsFirstReady self.old self.new) }
        ensures whole { self.old.over ≡ false → IfOk result (IsFirstWhole self.old self.new) }
        ensures none { IfOk result (λ command. command ≡ None → ready self.new ≡ []) }
        ensures read { IfOk result (λ command. command ≡ None → self.new.rest ≡ []) }
        ensures short { IsShort self.new.place }
        ensures kept { OnErr result (StillToCome self.old self.new) }
        ensures kept_whole { OnErr result (StillWhole self.old self.new) }
        ensures kept_ready { OnErr result (StillReady self.old self.new) }
    {
        while !self.is_read() {
            let command = self.read_line()?;
            if command.is_some() {
                return Ok(command);
            }
        }
        if self.over {
            self.last_command()
        } else {
            Ok(None)
        }
    }

    /// Whether everything that was fed has been read.
    fn is_read(&self) -> bool
        ensures { result ≡ (length self.now.rest == 0) }
    {
        self.at == self.end
    }

    /// Reads to the end of a line, or to the end of what was fed.
    fn read_line(&mut self) -> Result<Option<Command>, Memory>
        requires { 0 < length self.old.rest }
        ensures over { self.new.over ≡ self.old.over }
        ensures shorter { OnOk result (length self.new.rest < length self.old.rest) }
        ensures given { IfOk result (Gives self.old self.new) }
        ensures fits { IfOk result (λ command. IfSome command KeepsLimit) }
        ensures ready { IfOk result (IsFirstReady self.old self.new) }
        ensures whole { IfOk result (IsFirstWhole self.old self.new) }
        ensures short { IsShort self.new.place }
        ensures kept { OnErr result (StillToCome self.old self.new) }
        ensures kept_whole { OnErr result (StillWhole self.old self.new) }
        ensures kept_ready { OnErr result (StillReady self.old self.new) }
    {
        let rest = between(self.fed.as_slice(), self.at, self.end);
        let count = place_of(b'\n', rest);
        self.reader.extend(front(rest, count))?;
        self.at += count;
        if self.at == self.end {
            return Ok(None);
        }
        let command = self.reader.end_line(self.alloc)?;
        self.at += 1;
        Ok(command)
    }

    /// Returns the commands after the last line feed, one at a time.
    fn last_command(&mut self) -> Result<Option<Command>, Memory>
        requires over { self.old.over ≡ true }
        requires read { self.old.rest ≡ [] }
        ensures over { self.new.over ≡ true }
        ensures given { IfOk result (Gives self.old self.new) }
        ensures fits { IfOk result (λ command. IfSome command KeepsLimit) }
        ensures ready { IfOk result (IsFirstReady self.old self.new) }
        ensures none { IfOk result (λ command. command ≡ None → ready self.new ≡ []) }
        ensures read { self.new.rest ≡ [] }
        ensures short { IsShort self.new.place }
        ensures kept { OnErr result (StillToCome self.old self.new) }
        ensures kept_whole { OnErr result (StillWhole self.old self.new) }
        ensures kept_ready { OnErr result (StillReady self.old self.new) }
    {
        if !self.reader.is_between() {
            let command = self.reader.end_line(self.alloc)?;
            if command.is_some() {
                return Ok(command);
            }
        }
        if self.reader.drop_block() {
            return Ok(Some(Command::OpenBlock));
        }
        Ok(None)
    }
}
