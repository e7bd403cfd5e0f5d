//! One field of a row.
ghost use Rattle.std.specs.Prelude.{◌≡◌, OnOk, IfErr};
ghost use Rattle.fact_csv.specs.Batch.{value_in, measure_in, Refuses};
ghost use Rattle.fact_csv.specs.Drafts.{HasValue};

use crate::refusal::RowRefusal;
use cube_schema::Kind;
use fact_batch::BatchBuilder;
use fact_model::{GREATEST_NUMBER, LONGEST_TEXT, read_number};

/// Adds the value that a field gives an attribute of this kind, or returns its fault. After a fault the content of the
/// builder is unspecified.
pub fn read_value(
    kind: Kind,
    row: u64,
    field: u64,
    bytes: &[u8],
    builder: &mut BatchBuilder,
) -> Result<(), RowRefusal>
    ensures read { OnOk result (HasValue (value_in kind row field bytes.now) builder.old builder.new) }
    ensures refused { IfErr result (Refuses (value_in kind row field bytes.now)) }
{
    match kind {
        Kind::Word { .. } => {
            if bytes.len() > LONGEST_TEXT {
                return Err(RowRefusal::Long { row, field });
            }
            Ok(builder.push_text(bytes)?)
        }
        Kind::Number => match read_number(bytes) {
            Some(number) if 0 <= number && number <= i128::from(GREATEST_NUMBER) => {
                Ok(builder.push_value(number as u64)?)
            }
            _ => Err(RowRefusal::Number { row, field }),
        },
    }
}

/// The number that a field gives a measure.
pub fn read_measure(row: u64, field: u64, bytes: &[u8]) -> Result<i128, RowRefusal>
    ensures { result ≡ measure_in row field bytes.now }
{
    match read_number(bytes) {
        Some(number) => Ok(number),
        None => Err(RowRefusal::Number { row, field }),
    }
}
