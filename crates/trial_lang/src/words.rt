//! The words of a command, separated by single spaces.
ghost use Rattle.std.specs.Prelude.{◌<◌, IfOk};

use crate::trouble::Trouble;

/// The remaining words of a command.
#[derive(Clone, Copy)]
pub struct Words<'a> {
    rest: &'a str,
}

impl<'a> Words<'a> {
    /// The words of a line.
    pub fn of(line: &'a str) -> Words<'a> {
        Words { rest: line }
    }

    /// Takes the next word, or an empty one if there is none.
    pub fn next(&mut self) -> &'a str {
        let (word, rest) = self.rest.split_once(' ').unwrap_or((self.rest, ""));
        self.rest = rest;
        word
    }

    /// The remaining words, as one text.
    pub fn rest(&self) -> &'a str {
        self.rest
    }

    /// Takes a number.
    pub fn number(&mut self) -> Result<u64, Trouble> {
        number(self.next())
    }

    /// Takes a number, or returns `other` if no word is left.
    pub fn number_or(&mut self, other: u64) -> Result<u64, Trouble> {
        if self.rest.is_empty() {
            return Ok(other);
        }
        self.number()
    }

    /// Takes the first and the last number of a range. Either may be omitted.
    pub fn range(&mut self) -> Result<(u64, u64), Trouble> {
        let first = self.number_or(0)?;
        Ok((first, self.number_or(u64::MAX)?))
    }

    /// Takes the number of a file, and a number after it.
    pub fn file_and_number(&mut self) -> Result<(u32, u64), Trouble>
        ensures { IfOk result (λ taken. taken.0 < 4) }
    {
        let file = self.file()?;
        Ok((file, self.number()?))
    }

    /// Takes the number of a file.
    pub fn file(&mut self) -> Result<u32, Trouble>
        ensures { IfOk result (λ file. file < 4) }
    {
        match self.next() {
            "0" => Ok(0),
            "1" => Ok(1),
            "2" => Ok(2),
            "3" => Ok(3),
            _ => Err(Trouble::Unclear),
        }
    }
}

/// Reads a number.
pub fn number(word: &str) -> Result<u64, Trouble> {
    match word.parse::<u64>() {
        Ok(number) => Ok(number),
        Err(_) => Err(Trouble::Unclear),
    }
}
