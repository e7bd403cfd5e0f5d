//! The rows of all replies, joined by their keys.
ghost use Rattle.std.specs.Prelude.{◌≡◌, All, IfOk, map};
ghost use Rattle.fact_model.specs.Adds.{AddUp};
ghost use Rattle.fact_model.specs.Rows.{as_row};
ghost use Rattle.reply_text.specs.Replies.{answer_text};
ghost use Rattle.reply_fold.specs.Whole.{IsWide, joined};

use crate::folding::Folding;
use crate::order::order_of;
use csv_text::RowWriter;
use fact_model::{Column, Memory, Row};
use std::alloc::Global;

/// The reply for these rows, in ascending order of their keys. Rows with the same key become one: counts and sums are added; for least and
/// greatest numbers, the least and the greatest are kept.
pub(crate) fn joined_text(
    alloc: Global,
    columns: &[Column],
    rows: &[Row],
) -> Result<Vec<u8>, Memory>
    requires wide { All (IsWide columns.now) rows.now }
    requires adds { AddUp rows.now }
    ensures { IfOk result (λ text. text.items ≡ answer_text (map as_row (joined columns.now rows.now))) }
{
    let order = order_of(alloc, rows)?;
    let Some((first, rest)) = order.split_first() else {
        return RowWriter::new(alloc).into_answer(0);
    };
    let mut folding = Folding::begin(alloc, rows, *first)?;
    for at in rest {
        folding.take(columns, rows, *at)?;
    }
    folding.into_answer(rows)
}
