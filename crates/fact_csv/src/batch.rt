//! The rows of a block.
ghost use Rattle.std.specs.Prelude.{◌≡◌, ◌≤◌, ◌<◌, ◌+◌, List, ℕ, ◌++◌, ◌∷◌, [], Ok, IfOk, IfErr, OnOk, length};
ghost use Rattle.std.specs.List.{All};
ghost use Rattle.csv.specs.Records.{fields_of};
ghost use Rattle.cube_schema.specs.Agreeing.{Agrees};
ghost use Rattle.fact_csv.specs.Batch.{AreRead, batch_of, Refuses};
ghost use Rattle.fact_batch.specs.Batch.{IsBetween};
ghost use Rattle.fact_csv.specs.Drafts.{drafted};

use crate::refusal::RowRefusal;
use crate::row::read_row;
use csv::ByteRecord;
use csv_text::{block_reader, read_record};
use cube_schema::Schema;
use fact_batch::{Batch, BatchBuilder};
use std::alloc::Global;

/// The most rows of a batch.
pub const MOST_ROWS: u64 = 262_144;

/// Reads the rows of a block as facts. It is refused exactly if there are more than 262,144 rows, or else a row is faulty. Then
/// the first faulty row is named: its number of fields if that is wrong, otherwise its first faulty field.
pub fn read_batch(alloc: Global, schema: &Schema, block: &[u8]) -> Result<Batch, RowRefusal>
    ensures read { IfOk result (λ facts. batch_of schema.now block.now ≡ Ok facts) }
    ensures refused { IfErr result (Refuses (batch_of schema.now block.now)) }

    ensures agree { IfOk result (All (Agrees schema.now)) }
    ensures few { IfOk result (λ facts. length facts ≤ 262144) }
{
    let mut reader = block_reader(alloc, block);
    let mut fields = ByteRecord::new(alloc);
    let attrs = schema.attrs.as_slice().len();
    let measures = schema.measures.as_slice().len();
    let mut builder = BatchBuilder::new(alloc, attrs, measures);
    let mut so_far: Result<(), RowRefusal> = Ok(());
    // Too many rows come before any other fault, so the records after the first fault are counted too.
    for row in 0..MOST_ROWS {
        if !read_record(&mut reader, &mut fields)? {
            return batch_from(builder, so_far);
        }
        so_far = with_row(schema, row + 1, &fields, &mut builder, so_far);
    }
    if read_record(&mut reader, &mut fields)? {
        return Err(RowRefusal::Rows);
    }
    batch_from(builder, so_far)
}

/// Adds the fact of the next row to those so far, or returns the first fault.
fn with_row(
    schema: &Schema,
    row: u64,
    fields: &ByteRecord,
    builder: &mut BatchBuilder,
    so_far: Result<(), RowRefusal>,
) -> Result<(), RowRefusal>
    requires between { OnOk so_far (IsBetween (length schema.now.attrs) (length schema.now.measures) builder.old) }
    requires few { OnOk so_far (length builder.old.facts < 262144) }
    ensures between { OnOk result (IsBetween (length schema.now.attrs) (length schema.now.measures) builder.new) }
    ensures read { (rows : List (List (List ℕ))) → row ≡ length rows + 1 → AreRead schema.now rows (drafted so_far builder.old) → AreRead schema.now (rows ++ fields_of fields.now ∷ []) (drafted result builder.new) }
{
    so_far?;
    read_row(schema, row, fields, builder)
}

/// The batch of the facts, or the first fault.
fn batch_from(builder: BatchBuilder, so_far: Result<(), RowRefusal>) -> Result<Batch, RowRefusal>
    requires values { OnOk so_far (builder.values ≡ []) }
    requires numbers { OnOk so_far (builder.numbers ≡ []) }
    ensures { result ≡ drafted so_far builder }
{
    match so_far {
        Ok(()) => Ok(builder.finish()),
        Err(refusal) => Err(refusal),
    }
}
