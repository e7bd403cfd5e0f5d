//! Rows of a table, in which neighbours with the same text are merged.

use std::alloc::{AllocError, Global};

/// The first and the last number of the row that is not printed yet, and its text.
#[derive(Drop)]
pub struct Table {
    first: u64,
    last: u64,
    text: String,
}

impl Table {
    /// No rows.
    pub fn new(alloc: Global) -> Table {
        Table {
            first: 0,
            last: 0,
            text: String::new(alloc),
        }
    }

    /// Adds the text for a number, which is the next after the last one.
    pub fn add(&mut self, out: &mut String, number: u64, text: String) -> Result<(), AllocError> {
        if self.text != text {
            self.print(out)?;
            self.first = number;
            self.text = text;
        }
        self.last = number;
        Ok(())
    }

    /// Prints the last row.
    pub fn print(&self, out: &mut String) -> Result<(), AllocError> {
        if self.text.is_empty() {
            return Ok(());
        }
        if self.first == self.last {
            writeln!(out, "> {}: {}", self.first, self.text)
        } else {
            writeln!(out, "> {}..{}: {}", self.first, self.last, self.text)
        }
    }
}
