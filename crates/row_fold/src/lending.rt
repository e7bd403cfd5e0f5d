//! Rows that are borrowed one after another.
ghost use Rattle.std.specs.Prelude.{◌≡◌, ◌<◌, [], List, OnOk, get_or, length};
ghost use Rattle.fact_model.specs.declared.slice.Row as answers;
ghost use Rattle.row_fold.specs.Lent.{row_in};

use crate::lent::LentValue;
use fact_model::Memory;
use std::alloc::Global;

/// A row whose texts are borrowed.
#[derive(Drop)]
pub struct LentRow<'a> {
    /// The values of the grouped attributes, in the order of grouping.
    pub key: Vec<LentValue<'a>>,
    /// A number for each column.
    pub numbers: Vec<i128>,
}

impl<'a> LentRow<'a> {
    /// An empty row, to be filled later. Does not allocate.
    pub fn new(alloc: Global) -> LentRow<'a>
        ensures key { result.key.items ≡ [] }
        ensures numbers { result.numbers.items ≡ [] }
    {
        LentRow {
            key: Vec::new(alloc),
            numbers: Vec::new(alloc),
        }
    }
}

/// Rows in order, each of which can be borrowed.
pub trait LentRows {
    /// The rows.
    ghost rows: { Self → List answers.Row };

    /// How many rows there are.
    fn count(&self) -> usize
        ensures { result ≡ length (rows self.now) };

    /// Fills `row` with the row at this position, counted from 0. The only error is out of memory.
    fn lend<'a>(&'a self, place: usize, row: &mut LentRow<'a>) -> Result<(), Memory>
        requires { place < length (rows self.now) }
        ensures { (d : answers.Row) → OnOk result (row_in row.new ≡ get_or (rows self.now) place d) };
}
