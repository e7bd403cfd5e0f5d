//! A table whose rows name the results of looks.

use crate::endings::Endings;
use crate::program::Program;
use crate::table::Table;
use crate::trouble::Trouble;
use std::alloc::AllocError;

/// The endings of all looks so far, and the rows that name them by letters.
#[derive(Drop)]
pub struct Rows<'a, P: Program> {
    pub endings: Endings<'a, P>,
    table: Table,
}

impl<'a, P: Program> Rows<'a, P> {
    /// No rows.
    pub fn new(endings: Endings<'a, P>) -> Rows<'a, P> {
        let table = Table::new(endings.alloc());
        Rows { endings, table }
    }

    /// Adds the text for a number, which is the next after the last one.
    pub fn add(&mut self, out: &mut String, number: u64, text: String) -> Result<(), AllocError> {
        self.table.add(out, number, text)
    }

    /// Prints the last row, and what the letters stand for.
    pub fn print(&self, out: &mut String) -> Result<(), Trouble> {
        self.table.print(out)?;
        Ok(self.endings.print(out)?)
    }
}
