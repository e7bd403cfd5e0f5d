//! One row of a batch.
ghost use Rattle.std.specs.Prelude.{◌≡◌, ◌≤◌, ◌<◌, [], Ok, IfErr, OnOk, length, get_or};
ghost use Rattle.csv.specs.Records.{fields_of};
ghost use Rattle.fact_csv.specs.Batch.{fact_in, values_in, measures_in, Refuses};
ghost use Rattle.fact_batch.specs.Batch.{IsBetween};
ghost use Rattle.fact_csv.specs.Drafts.{HasRow};

use crate::field::{read_measure, read_value};
use crate::refusal::RowRefusal;
use csv::ByteRecord;
use cube_schema::{Attr, Schema};
use fact_batch::BatchBuilder;

/// Adds the fact of a row, or returns its first fault. After a fault the content of the builder is unspecified.
pub fn read_row(
    schema: &Schema,
    row: u64,
    fields: &ByteRecord,
    builder: &mut BatchBuilder,
) -> Result<(), RowRefusal>
    requires between { IsBetween (length schema.now.attrs) (length schema.now.measures) builder.old }
    requires few { length builder.old.facts < 262144 }
    ensures read { OnOk result (HasRow (fact_in schema.now row (fields_of fields.now)) builder.old builder.new) }
    ensures refused { IfErr result (Refuses (fact_in schema.now row (fields_of fields.now))) }
{
    let attrs = schema.attrs.as_slice();
    let measures = schema.measures.as_slice().len();
    if fields.len() != attrs.len() + measures {
        return Err(RowRefusal::Fields(row));
    }
    read_values(attrs, row, fields, builder)?;
    read_measures(attrs.len(), row, fields, builder)?;
    builder.end_fact();
    Ok(())
}

/// Adds the values that the first fields give the attributes, or returns the first fault.
fn read_values(
    attrs: &[Attr],
    row: u64,
    fields: &ByteRecord,
    builder: &mut BatchBuilder,
) -> Result<(), RowRefusal>
    requires short { length attrs.now ≤ length (fields_of fields.now) }
    requires none { builder.old.values ≡ [] }
    ensures read { OnOk result (values_in row attrs.now (fields_of fields.now) ≡ Ok builder.new.values) }
    ensures rest { OnOk result (builder.new ≡ record builder.old { values = builder.new.values }) }
    ensures refused { IfErr result (Refuses (values_in row attrs.now (fields_of fields.now))) }
{
    for (i, attr) in attrs.iter().enumerate() {
        read_value(attr.kind, row, i as u64 + 1, field(fields, i), builder)?;
    }
    Ok(())
}

/// Adds the numbers that the fields after the attributes' fields give the measures, or returns the first fault.
fn read_measures(
    attrs: usize,
    row: u64,
    fields: &ByteRecord,
    builder: &mut BatchBuilder,
) -> Result<(), RowRefusal>
    requires none { builder.old.numbers ≡ [] }
    ensures read { OnOk result (measures_in row attrs (fields_of fields.now) ≡ Ok builder.new.numbers) }
    ensures rest { OnOk result (builder.new ≡ record builder.old { numbers = builder.new.numbers }) }
    ensures refused { IfErr result (Refuses (measures_in row attrs (fields_of fields.now))) }
{
    for i in attrs..fields.len() {
        let number = read_measure(row, i as u64 + 1, field(fields, i))?;
        builder.push_number(number)?;
    }
    Ok(())
}

/// The field at this index, counted from 0; empty past the last one.
fn field(fields: &ByteRecord, place: usize) -> &[u8]
    ensures { result.now ≡ get_or (fields_of fields.now) place [] }
{
    fields.get(place).unwrap_or(&[])
}
