//! Replies of rows.
ghost use Rattle.std.specs.Prelude.{◌≡◌, [], IfOk, OnErr, OnOk, map};
ghost use Rattle.std.specs.Fmt.{signed_decimal};
ghost use Rattle.csv_text.specs.Rows.{nothing_written, row_fields, value_text, with_end, with_field, with_fields, with_rows};
ghost use Rattle.reply_text.specs.Replies.{answer_text};

use csv_text::RowWriter;
use fact_model::{Memory, Row, Rows, Value};
use std::alloc::Global;

/// The rows, each on a line as `csv` writes a record, and then their number.
pub fn answered(alloc: Global, rows: &Rows) -> Result<Vec<u8>, Memory>
    ensures { IfOk result (λ reply. reply.items ≡ answer_text rows.now) }
{
    let rows = rows.as_slice();
    let mut writer = RowWriter::new(alloc);
    push_rows(&mut writer, rows)?;
    writer.into_answer(rows.len() as u64)
}

/// Writes the rows.
fn push_rows(writer: &mut RowWriter, rows: &[Row]) -> Result<(), Memory>
    requires { writer.old.fields ≡ [] }
    ensures { OnOk result (writer.new ≡ with_rows writer.old (map row_fields rows.now)) }
{
    for row in rows {
        push_row(writer, row)?;
    }
    Ok(())
}

/// Writes a row.
fn push_row(writer: &mut RowWriter, row: &Row) -> Result<(), Memory>
    ensures { OnOk result (writer.new ≡ with_end (with_fields writer.old (row_fields row.now))) }
{
    push_values(writer, row.key.as_slice())?;
    push_numbers(writer, row.numbers.as_slice())?;
    writer.end_row()
}

/// Appends values to the row. After `Memory` the writer is as a new one.
pub fn push_values(writer: &mut RowWriter, values: &[Value]) -> Result<(), Memory>
    ensures written { OnOk result (writer.new ≡ with_fields writer.old (map value_text values.now)) }
    ensures dropped { OnErr result (writer.new ≡ nothing_written) }
{
    for value in values {
        push_value(writer, value)?;
    }
    Ok(())
}

/// Appends a value to the row.
fn push_value(writer: &mut RowWriter, value: &Value) -> Result<(), Memory>
    ensures written { OnOk result (writer.new ≡ with_field writer.old (value_text value.now)) }
    ensures dropped { OnErr result (writer.new ≡ nothing_written) }
{
    match value {
        Value::Word(text) => writer.push_field(text.as_bytes()),
        Value::Number(number) => writer.push_natural(*number),
    }
}

/// Appends numbers to the row. After `Memory` the writer is as a new one.
pub fn push_numbers(writer: &mut RowWriter, numbers: &[i128]) -> Result<(), Memory>
    ensures written { OnOk result (writer.new ≡ with_fields writer.old (map signed_decimal numbers.now)) }
    ensures dropped { OnErr result (writer.new ≡ nothing_written) }
{
    for number in numbers {
        writer.push_number(*number)?;
    }
    Ok(())
}
