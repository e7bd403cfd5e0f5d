//! The fields of a record.
ghost use Rattle.std.specs.Prelude.{◌≡◌, [], IfOk, get_or};
ghost use Rattle.csv.specs.Records.{fields_of};
ghost use Rattle.reply_fold.specs.Replies.{is_end, is_refusal, is_single};

use csv::ByteRecord;
use fact_model::Memory;
use fact_model::bytes::front;
use itoa::Buffer;
use std::alloc::Global;

/// Field `place`, counted from 0; empty past the last.
pub(crate) fn field(fields: &ByteRecord, place: usize) -> &[u8]
    ensures { result.now ≡ get_or (fields_of fields.now) place [] }
{
    fields.get(place).unwrap_or(&[])
}

/// Whether the record has only this field.
pub(crate) fn is_single(text: &[u8], fields: &ByteRecord) -> bool
    ensures { result ≡ is_single text.now (fields_of fields.now) }
{
    fields.len() == 1 && field(fields, 0) == text
}

/// Whether the record ends a reply of `rows` rows.
pub(crate) fn is_end(alloc: Global, rows: u64, fields: &ByteRecord) -> Result<bool, Memory>
    ensures { IfOk result (λ ends. ends ≡ is_end rows (fields_of fields.now)) }
{
    if fields.len() != 1 {
        return Ok(false);
    }
    let mut text = Vec::from_slice(alloc, b"rows ")?;
    text.extend_from_slice(Buffer::new().format(rows).as_bytes())?;
    Ok(is_single(&text, fields))
}

/// Whether the record is a refusal.
pub(crate) fn is_refusal(fields: &ByteRecord) -> bool
    ensures { result ≡ is_refusal (fields_of fields.now) }
{
    fields.len() == 1 && front(field(fields, 0), 8) == b"refused ".as_slice()
}
