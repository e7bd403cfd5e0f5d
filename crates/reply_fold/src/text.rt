//! The text of a refusal, written by the code that writes the replies of `cubetree`.
ghost use Rattle.std.specs.Prelude.{◌≡◌, [], ◌∷◌, IfOk};
ghost use Rattle.csv.specs.Writing.{default_writer, row_text};

use csv_text::RowWriter;
use fact_model::Memory;
use std::alloc::Global;

/// A refusal as a line.
pub(crate) fn refusal_text(alloc: Global, text: &[u8]) -> Result<Vec<u8>, Memory>
    ensures { IfOk result (λ line. line.items ≡ row_text default_writer (text.now ∷ [])) }
{
    let mut writer = RowWriter::new(alloc);
    writer.push_field(text)?;
    writer.end_row()?;
    writer.into_text()
}
