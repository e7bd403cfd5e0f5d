//! The records of a block, one at a time.
ghost use Rattle.std.specs.Prelude.{◌≡◌, true, IfOk};
ghost use Rattle.csv.specs.Records.{fields_of};
ghost use Rattle.csv_text.specs.Reader.{IsBlockReader, IsNext, left_by};
ghost use Rattle.csv_text.specs.Records.{records_of};

use csv::{ByteRecord, Reader, ReaderBuilder};
use fact_model::Memory;
use std::alloc::Global;

/// A reader of the records of a block. The block has no header row, and records may differ in their number of fields.
pub fn block_reader(alloc: Global, block: &[u8]) -> Reader<&[u8]>
    ensures reader { IsBlockReader result }
    ensures all { left_by result ≡ records_of block.now }
{
    ReaderBuilder::new()
        .has_headers(false)
        .flexible(true)
        .from_reader(alloc, block)
}

/// Reads the next record of a block into `fields`, which it overwrites, and returns whether there was one. After `Memory` the
/// reader gives no more records.
pub fn read_record(reader: &mut Reader<&[u8]>, fields: &mut ByteRecord) -> Result<bool, Memory>
    requires { IsBlockReader reader.old }
    ensures next { IfOk result (λ found. IsNext (left_by reader.old) (left_by reader.new) (fields_of fields.new) found) }
    ensures reader { IfOk result (λ found. found ≡ true → IsBlockReader reader.new) }
{
    let Ok(found) = reader.read_byte_record(fields) else {
        // When it reads from memory, `csv` fails only if memory runs out.
        return Err(Memory);
    };
    Ok(found)
}
