//! Rows as text.
ghost use Rattle.std.specs.Prelude.{◌≡◌, ◌++◌, [], false, true, IfOk, OnOk, OnErr, decimal};
ghost use Rattle.std.specs.Fmt.{signed_decimal};
ghost use Rattle.csv.specs.Records.{fields_of};
ghost use Rattle.csv.specs.Writing.{default_writer, fields_written, has_written, row_text, with_flexible, writer_setup};
ghost use Rattle.csv_text.specs.Between.{IsBetween, text_of};
ghost use Rattle.csv_text.specs.Rows.{nothing_written, with_count, with_field, with_end};

use csv::{ByteRecord, Writer, WriterBuilder};
use fact_model::Memory;
use itoa::Buffer;
use std::alloc::Global;
use std::marker::Model;

/// Writes rows as text, field by field, through one record that is reused. After `Memory` everything written is
/// discarded, and the writer is like a new one.
#[derive(Drop)]
pub struct RowWriter {
    alloc: Global,
    writer: Writer<Vec<u8>>,
    row: ByteRecord,
}

impl Model for RowWriter {
    ghost use Rattle.csv.specs.Records.{fields_of};
    ghost use Rattle.csv_text.specs.Rows.{Written};
    ghost use Rattle.csv_text.specs.Between.{IsBetween, text_of};

    ghost Value = { Written };

    ghost view = { λ w. record { text = text_of w.writer; fields = fields_of w.row } };

    ghost invariant = { λ w. IsBetween w.writer w.row };
}

impl RowWriter {
    /// A writer with nothing written. Does not allocate.
    pub fn new(alloc: Global) -> RowWriter
        ensures { result ≡ nothing_written }
    {
        RowWriter {
            alloc,
            writer: new_writer(alloc),
            row: ByteRecord::new(alloc),
        }
    }

    /// Appends a field to the row.
    pub fn push_field(&mut self, field: &[u8]) -> Result<(), Memory>
        ensures pushed { OnOk result (self.new ≡ with_field self.old field.now) }
        ensures dropped { OnErr result (self.new ≡ nothing_written) }
    {
        match self.row.push_field(field) {
            Ok(()) => Ok(()),
            Err(_) => {
                start_anew(self.alloc, &mut self.writer, &mut self.row);
                Err(Memory)
            }
        }
    }

    /// Appends a number to the row, in decimal.
    pub fn push_number(&mut self, number: i128) -> Result<(), Memory>
        ensures pushed { OnOk result (self.new ≡ with_field self.old (signed_decimal number)) }
        ensures dropped { OnErr result (self.new ≡ nothing_written) }
    {
        self.push_field(Buffer::new().format(number).as_bytes())
    }

    /// Appends a natural number to the row, in decimal.
    pub fn push_natural(&mut self, number: u64) -> Result<(), Memory>
        ensures pushed { OnOk result (self.new ≡ with_field self.old (decimal number)) }
        ensures dropped { OnErr result (self.new ≡ nothing_written) }
    {
        self.push_field(Buffer::new().format(number).as_bytes())
    }

    /// Ends the row. A row without fields, or with one empty field, is written as two quotes.
    pub fn end_row(&mut self) -> Result<(), Memory>
        ensures ended { OnOk result (self.new ≡ with_end self.old) }
        ensures dropped { OnErr result (self.new ≡ nothing_written) }
    {
        match write_record(&mut self.writer, &mut self.row) {
            Ok(()) => Ok(()),
            Err(Memory) => {
                start_anew(self.alloc, &mut self.writer, &mut self.row);
                Err(Memory)
            }
        }
    }

    /// The text of the rows that have been ended.
    pub fn into_text(self) -> Result<Vec<u8>, Memory>
        ensures { IfOk result (λ text. text.items ≡ self.text) }
    {
        let RowWriter { writer, .. } = self;
        match writer.into_inner() {
            Ok(text) => Ok(text),
            // When it writes to memory, `csv` fails only if memory runs out.
            Err(_) => Err(Memory),
        }
    }

    /// The text of the rows that have been ended, followed by a line with their number, which is `count`.
    pub fn into_answer(self, count: u64) -> Result<Vec<u8>, Memory>
        ensures { IfOk result (λ text. text.items ≡ with_count self.text count) }
    {
        let last = format!(in self.alloc; "rows {count}\n")?;
        let mut text = self.into_text()?;
        text.extend_from_slice(last.as_bytes())?;
        Ok(text)
    }
}

/// Writes the record and empties it.
fn write_record(writer: &mut Writer<Vec<u8>>, row: &mut ByteRecord) -> Result<(), Memory>
    requires { IsBetween writer.old row.old }
    ensures between { OnOk result (IsBetween writer.new row.new) }
    ensures written { OnOk result (text_of writer.new ≡ text_of writer.old ++ row_text default_writer (fields_of row.old)) }
    ensures emptied { OnOk result (fields_of row.new ≡ []) }
{
    if writer.write_byte_record(row).is_err() {
        return Err(Memory);
    }
    row.clear();
    Ok(())
}

/// A writer of rows that may differ in their number of fields.
fn new_writer(alloc: Global) -> Writer<Vec<u8>>
    ensures setup { writer_setup result ≡ with_flexible default_writer true }
    ensures fields { fields_written result ≡ 0 }
    ensures wrote { has_written result ≡ false }
    ensures text { text_of result ≡ [] }
{
    WriterBuilder::new()
        .flexible(true)
        .from_writer(Vec::new(alloc))
}

/// Discards everything written. It is a separate function because its stack frame holds a new writer: so no row pays for that frame.
#[cold]
#[inline(never)]
fn start_anew(alloc: Global, writer: &mut Writer<Vec<u8>>, row: &mut ByteRecord)
    ensures between { IsBetween writer.new row.new }
    ensures text { text_of writer.new ≡ [] }
    ensures fields { fields_of row.new ≡ [] }
{
    *writer = new_writer(alloc);
    *row = ByteRecord::new(alloc);
}
