//! The records of replies, one after the other.
ghost use Rattle.csv_text.specs.Records.{records_of};
ghost use Rattle.reply_fold.specs.Answers.{Answers};
ghost use Rattle.reply_fold.specs.Replies.{first_in, refused_from, rows_from};

use crate::fault::Fault;
use crate::fields::{field, is_refusal, is_single};
use crate::taken::Taken;
use csv::ByteRecord;
use csv_text::{block_reader, read_record};
use cube_schema::Schema;
use fact_model::{ListOf, Rows, Slice, Text};
use std::alloc::Global;

/// The first reply, if it is a refusal.
pub(crate) fn first_refusal(alloc: Global, replies: &[u8]) -> Result<Option<Text>, Fault>
    ensures { Answers result (first_in (records_of replies.now)) }
{
    let mut reader = block_reader(alloc, replies);
    let mut fields = ByteRecord::new(alloc);
    if !read_record(&mut reader, &mut fields)? {
        return Err(Fault::Nothing);
    }
    if is_refusal(&fields) {
        let text = Text::from_bytes(alloc, field(&fields, 0))?;
        return Ok(Some(text));
    }
    Ok(None)
}

/// Checks that each reply is this refusal.
pub(crate) fn share_refusal(alloc: Global, replies: &[u8], text: &[u8]) -> Result<(), Fault>
    ensures { Answers result (refused_from text.now 1 (records_of replies.now)) }
{
    let mut reader = block_reader(alloc, replies);
    let mut fields = ByteRecord::new(alloc);
    for number in 1..u64::MAX {
        if !read_record(&mut reader, &mut fields)? {
            return Ok(());
        }
        if !is_single(text, &fields) {
            return Err(Fault::Differs(number));
        }
    }
    // Memory cannot hold this many records.
    Err(Fault::Memory)
}

/// The rows of all replies, each of which ends with the number of its rows.
pub(crate) fn read_rows(
    alloc: Global,
    schema: &Schema,
    slice: &Slice,
    replies: &[u8],
) -> Result<Rows, Fault>
    ensures { Answers result (rows_from schema.now slice.now 0 1 (records_of replies.now)) }
{
    let mut reader = block_reader(alloc, replies);
    let mut fields = ByteRecord::new(alloc);
    let mut taken = Taken {
        rows: ListOf::new(alloc),
        begun: 0,
    };
    for number in 1..u64::MAX {
        if !read_record(&mut reader, &mut fields)? {
            return taken.into_rows();
        }
        taken.take(alloc, schema, slice, number, &fields)?;
    }
    // Memory cannot hold this many records.
    Err(Fault::Memory)
}
