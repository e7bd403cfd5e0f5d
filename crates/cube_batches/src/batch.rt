//! A batch, read from a block of rows or made by the generator.
ghost use Rattle.std.specs.Prelude.{◌≡◌, ℕ, IfOk, IfErr};
ghost use Rattle.cube_schema.specs.Lawful.{IsSchema};
ghost use Rattle.spec_machine.specs.Machine.{batch_from, block_read, generated_within, in_turn, with_last, with_number};
ghost use Rattle.cube_batches.specs.Reading.{IsRead};

use cube_schema::Schema;
use cube_state::Stop;
use fact_batch::Batch;
use fact_csv::{MOST_ROWS, RowRefusal, read_batch};
use fact_gen::generate;
use script_lang::Block;
use spec_machine::BatchSource;
use std::alloc::Global;

/// What a source gives.
#[derive(Drop)]
pub enum Read {
    /// These facts, and the number of the batch, if it has one.
    Batch(Batch, Option<u64>),
    /// No batch. The reply says why.
    Refused(Vec<u8>),
}

/// The batch of a source, for the schema and the number of the last numbered batch. An error means out of memory.
pub fn read_source(
    alloc: Global,
    schema: &Schema,
    last: u64,
    source: BatchSource,
) -> Result<Read, Stop>
    requires lawful { IsSchema schema.now }
    ensures read { IfOk result (IsRead schema.now last (batch_from schema.now last source)) }
    ensures memory { IfErr result (λ stop. stop ≡ Stop.Memory) }
{
    match source {
        BatchSource::Rows(block) => read_block(alloc, schema, block),
        BatchSource::Numbered { number, block } => read_next(alloc, schema, last, number, block),
        BatchSource::Generator { start, rows } => make_batch(alloc, schema, start, rows),
    }
}

/// The facts of a block, as a batch without a number.
fn read_block(alloc: Global, schema: &Schema, block: Block) -> Result<Read, Stop>
    ensures read { (last : ℕ) → IfOk result (IsRead schema.now last (with_last last (block_read schema.now block))) }
    ensures memory { IfErr result (λ stop. stop ≡ Stop.Memory) }
{
    let Block::Whole(text) = block else {
        let reply = reply_text::plain(alloc, "refused block")?;
        return Ok(Read::Refused(reply));
    };
    match read_batch(alloc, schema, text.as_bytes()) {
        Ok(batch) => Ok(Read::Batch(batch, None)),
        Err(refusal) => {
            let reply = reply_text::refused_batch(alloc, refusal)?;
            Ok(Read::Refused(reply))
        }
    }
}

/// The batch of a block with this number, if it is the number after the last.
fn read_next(
    alloc: Global,
    schema: &Schema,
    last: u64,
    number: u64,
    block: Block,
) -> Result<Read, Stop>
    ensures read { IfOk result (IsRead schema.now last (in_turn last number (with_number number (block_read schema.now block)))) }
    ensures memory { IfErr result (λ stop. stop ≡ Stop.Memory) }
{
    if number <= last {
        let reply = reply_text::already(alloc, number)?;
        return Ok(Read::Refused(reply));
    }
    if number > last + 1 {
        let reply = reply_text::refused_gap(alloc, last + 1)?;
        return Ok(Read::Refused(reply));
    }
    let batch = match read_block(alloc, schema, block)? {
        Read::Batch(batch, _) => batch,
        Read::Refused(reply) => return Ok(Read::Refused(reply)),
    };
    if batch.is_empty() {
        let reply = reply_text::plain(alloc, "refused empty")?;
        return Ok(Read::Refused(reply));
    }
    Ok(Read::Batch(batch, Some(number)))
}

/// Makes `rows` facts of the schema, from the generator state `start`, unless they are too many for a batch.
fn make_batch(alloc: Global, schema: &Schema, start: u64, rows: u64) -> Result<Read, Stop>
    requires lawful { IsSchema schema.now }
    ensures read { (last : ℕ) → IfOk result (IsRead schema.now last (with_last last (generated_within schema.now start rows))) }
    ensures memory { IfErr result (λ stop. stop ≡ Stop.Memory) }
{
    if rows > MOST_ROWS {
        let reply = reply_text::refused_batch(alloc, RowRefusal::Rows)?;
        return Ok(Read::Refused(reply));
    }
    let batch = generate(alloc, schema, start, rows)?;
    Ok(Read::Batch(batch, None))
}
