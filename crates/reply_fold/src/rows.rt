//! Reads a row from its record.
ghost use Rattle.std.specs.Prelude.{◌≡◌, ◌≤◌, [], length};
ghost use Rattle.csv.specs.Records.{fields_of};
ghost use Rattle.reply_fold.specs.Answers.{Answers};
ghost use Rattle.reply_fold.specs.Rows.{number_at, numbers_in, row_in, value_in, values_in};

use crate::fault::Fault;
use crate::fields::field;
use csv::ByteRecord;
use cube_schema::{Kind, Schema};
use fact_model::{ListOf, NumberList, Row, Slice, Text, Value, ValueList, read_number};
use slice_lang::read_coordinate;
use std::alloc::Global;

/// Reads record `number` as a row of the slice: a field for each grouped attribute, then one for each column. This is the inverse of printing.
pub(crate) fn read_row(
    alloc: Global,
    schema: &Schema,
    slice: &Slice,
    number: u64,
    fields: &ByteRecord,
) -> Result<Row, Fault>
    ensures { Answers result (row_in schema.now slice.now number (fields_of fields.now)) }
{
    let group = slice.group.as_slice();
    let columns = slice.columns.as_slice();
    if fields.len() != group.len() + columns.len() {
        return Err(Fault::Record(number));
    }
    let key = read_values(alloc, schema, group, number, fields)?;
    let numbers = read_numbers(alloc, group.len(), number, fields)?;
    Ok(Row { key, numbers })
}

/// The values of the grouped attributes, read from the first fields.
fn read_values(
    alloc: Global,
    schema: &Schema,
    group: &[u32],
    number: u64,
    fields: &ByteRecord,
) -> Result<ValueList, Fault>
    requires { length group.now ≤ length (fields_of fields.now) }
    ensures { Answers result (values_in schema.now group.now number (fields_of fields.now)) }
{
    let mut values = ListOf::from_vec(Vec::with_capacity(alloc, group.len())?);
    for (i, attr) in group.iter().enumerate() {
        let value = read_value(alloc, schema.kind_at(*attr), number, field(fields, i))?;
        values.push(value)?;
    }
    Ok(values)
}

/// The value of an attribute of this kind, read from a field.
fn read_value(alloc: Global, kind: Kind, number: u64, bytes: &[u8]) -> Result<Value, Fault>
    ensures { Answers result (value_in kind number bytes.now) }
{
    match kind {
        Kind::Word { .. } => Ok(Value::Word(Text::from_bytes(alloc, bytes)?)),
        Kind::Number => match read_coordinate(bytes) {
            Some(value) => Ok(Value::Number(value)),
            None => Err(Fault::Record(number)),
        },
    }
}

/// The numbers in the fields after the first `values`.
fn read_numbers(
    alloc: Global,
    values: usize,
    number: u64,
    fields: &ByteRecord,
) -> Result<NumberList, Fault>
    ensures { Answers result (numbers_in values number (fields_of fields.now)) }
{
    let count = fields.len().saturating_sub(values);
    let mut numbers = ListOf::from_vec(Vec::with_capacity(alloc, count)?);
    for i in values..fields.len() {
        let value = number_at(number, field(fields, i))?;
        numbers.push(value)?;
    }
    Ok(numbers)
}

/// The number in a field.
fn number_at(number: u64, bytes: &[u8]) -> Result<i128, Fault>
    ensures { result ≡ number_at number bytes.now }
{
    match read_number(bytes) {
        Some(value) => Ok(value),
        None => Err(Fault::Record(number)),
    }
}
