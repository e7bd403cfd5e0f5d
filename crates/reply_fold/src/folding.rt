//! Folds rows in the order of their keys, and writes each as soon as it is complete.
ghost use Rattle.std.specs.Prelude.{◌≡◌, ◌≤◌, ◌<◌, ◌+◌, ◌^◌, [], ◌∷◌, ℕ, ℤ, List, IfOk, OnOk, length, map};
ghost use Rattle.csv_text.specs.Rows.{row_fields, with_end, with_fields};
ghost use Rattle.fact_model.specs.Rows.{as_row};
ghost use Rattle.fact_model.specs.Value.{Key};
ghost use Rattle.fact_model.specs.declared.slice.Column as columns;
ghost use Rattle.reply_text.specs.Replies.{answer_text};
ghost use Rattle.row_fold.specs.Joins.{CanJoin, size_at};
ghost use Rattle.reply_fold.specs.Folding.{Makes, entry_at, head_of, neighbours};
ghost use Rattle.reply_fold.specs.Order.{row_at};

use crate::order::{compare, key_at, numbers_at};
use csv_text::RowWriter;
use fact_model::{Column, Memory, Row};
use reply_text::{push_numbers, push_values};
use row_fold::join_numbers;
use std::alloc::Global;

/// The text of the complete rows, and the row of the last key so far.
#[derive(Drop)]
pub(crate) struct Folding {
    pub(crate) writer: RowWriter,
    /// The number of rows written.
    pub(crate) count: u64,
    /// The place of the first row with the last key.
    pub(crate) head: usize,
    /// The combined numbers of all rows with that key.
    pub(crate) sums: Vec<i128>,
}

impl Folding {
    /// Starts with the row at a place.
    pub(crate) fn begin(alloc: Global, rows: &[Row], at: usize) -> Result<Folding, Memory>
        ensures makes { IfOk result (λ folding. (cs : List columns.Column) (es : List (Key × List ℤ)) → Makes cs rows.now folding es (neighbours cs (entry_at rows.now at ∷ es))) }
        ensures sums { IfOk result (λ folding. folding.sums.items ≡ (row_at rows.now at).numbers) }
        ensures count { IfOk result (λ folding. folding.count ≡ 0) }
    {
        Ok(Folding {
            writer: RowWriter::new(alloc),
            count: 0,
            head: at,
            sums: Vec::from_slice(alloc, numbers_at(rows, at))?,
        })
    }

    /// Adds the row at a place. Its key is not below the last one.
    pub(crate) fn take(&mut self, columns: &[Column], rows: &[Row], at: usize) -> Result<(), Memory>
        requires room { CanJoin columns.now (row_at rows.now at).numbers self.old.sums.items }
        requires few { self.old.count < 2 ^ 63 }
        ensures makes { OnOk result ((es whole : List (Key × List ℤ))
            → Makes columns.now rows.now self.old (entry_at rows.now at ∷ es) whole → Makes columns.now rows.now self.new es whole) }
        ensures wide { OnOk result (length self.new.sums.items ≡ length columns.now) }
        ensures light { OnOk result ((j : ℕ) → size_at j self.new.sums.items ≤ size_at j self.old.sums.items + size_at j (row_at rows.now at).numbers) }
        ensures count { OnOk result (self.new.count ≤ self.old.count + 1) }
    {
        let numbers = numbers_at(rows, at);
        if compare(rows, self.head, at).is_eq() {
            join_numbers(columns, numbers, &mut self.sums);
            return Ok(());
        }
        self.write(rows)?;
        self.head = at;
        self.sums.clear();
        self.sums.extend_from_slice(numbers)?;
        Ok(())
    }

    /// Writes the row of the last key.
    fn write(&mut self, rows: &[Row]) -> Result<(), Memory>
        requires few { self.old.count < 2 ^ 63 }
        ensures written { OnOk result (self.new.writer ≡ with_end (with_fields self.old.writer (row_fields (as_row (head_of rows.now self.old))))) }
        ensures count { OnOk result (self.new.count ≡ self.old.count + 1) }
        ensures head { self.new.head ≡ self.old.head }
        ensures sums { self.new.sums ≡ self.old.sums }
    {
        push_values(&mut self.writer, key_at(rows, self.head))?;
        push_numbers(&mut self.writer, &self.sums)?;
        self.writer.end_row()?;
        self.count += 1;
        Ok(())
    }

    /// The text of all rows, followed by a line with their number.
    pub(crate) fn into_answer(self, rows: &[Row]) -> Result<Vec<u8>, Memory>
        requires few { self.count < 2 ^ 63 }
        ensures { IfOk result (λ text. (cs : List columns.Column) (whole : List (Key × List ℤ))
            → Makes cs rows.now self [] whole → text.items ≡ answer_text (map as_row whole)) }
    {
        let mut folding = self;
        folding.write(rows)?;
        let Folding { writer, count, .. } = folding;
        writer.into_answer(count)
    }
}
