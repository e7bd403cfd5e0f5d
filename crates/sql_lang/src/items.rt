//! The items of a query and its table.
ghost use Rattle.std.specs.Prelude.{◌≡◌};
ghost use Rattle.cube_schema.specs.Lawful.{IsSchema};
ghost use Rattle.sql_lang.specs.Answers.{Answers};
ghost use Rattle.sql_lang.specs.Reading.{at_item, at_measure, at_close, at_table, column_over, along, only};

use crate::draft::{Draft, Due, Fold, Reader};
use crate::names::{attr_at, measure_at};
use crate::query::Item;
use crate::refusal::SqlRefusal;
use crate::token::Token;
use cube_schema::Schema;
use fact_model::Column;

/// The refusal of a token that may not come here.
pub(crate) fn misfit(token: &Token) -> SqlRefusal
    ensures { result ≡ SqlRefusal.Syntax token.now.byte }
{
    SqlRefusal::Syntax(token.byte)
}

/// If the token may come here, this is due after it; otherwise the token is refused.
pub(crate) fn along(
    draft: Draft,
    token: &Token,
    stands: bool,
    due: Due,
) -> Result<Reader, SqlRefusal>
    ensures { Answers result (along draft token.now (only stands due)) }
{
    if stands {
        return Ok(draft.goes(due));
    }
    Err(misfit(token))
}

/// An item: an attribute, or the first word of a column.
#[tactic(auto, unfolding(crate::specs::Reading::at_item))]
pub(crate) fn at_item(schema: &Schema, draft: Draft, token: &Token) -> Result<Reader, SqlRefusal>
    requires { IsSchema schema.now }
    ensures { Answers result (at_item schema.now draft token.now) }
{
    if token.is_word(b"COUNT") {
        return Ok(draft.goes(Due::CountOpen));
    }
    if token.is_word(b"SUM") {
        return Ok(draft.goes(Due::FoldOpen(Fold::Sum)));
    }
    if token.is_word(b"MIN") {
        return Ok(draft.goes(Due::FoldOpen(Fold::Min)));
    }
    if token.is_word(b"MAX") {
        return Ok(draft.goes(Due::FoldOpen(Fold::Max)));
    }
    let attr = attr_at(schema, token)?;
    let draft = draft.with_attr(attr, token.byte)?;
    Ok(draft.goes(Due::MoreItems))
}

/// The measure of a column.
#[tactic(auto, unfolding(crate::specs::Reading::at_measure))]
pub(crate) fn at_measure(
    schema: &Schema,
    draft: Draft,
    fold: Fold,
    token: &Token,
) -> Result<Reader, SqlRefusal>
    requires { IsSchema schema.now }
    ensures { Answers result (at_measure schema.now draft fold token.now) }
{
    let measure = measure_at(schema, token)?;
    Ok(draft.goes(Due::Close(column_over(fold, measure))))
}

fn column_over(fold: Fold, measure: u32) -> Column
    ensures { result ≡ column_over fold measure }
{
    match fold {
        Fold::Sum => Column::Sum(measure),
        Fold::Min => Column::Min(measure),
        Fold::Max => Column::Max(measure),
    }
}

/// The end of a column.
#[tactic(auto, unfolding(crate::specs::Reading::at_close))]
pub(crate) fn at_close(draft: Draft, column: Column, token: &Token) -> Result<Reader, SqlRefusal>
    ensures { Answers result (at_close draft column token.now) }
{
    if token.is_mark(b")") {
        let draft = draft.with_item(Item::Column(column))?;
        return Ok(draft.goes(Due::MoreItems));
    }
    Err(misfit(token))
}

/// The table.
#[tactic(auto, unfolding(crate::specs::Reading::at_table))]
pub(crate) fn at_table(draft: Draft, token: &Token) -> Result<Reader, SqlRefusal>
    ensures { Answers result (at_table draft token.now) }
{
    if !token.is_name() {
        return Err(misfit(token));
    }
    if token.text.as_bytes() != b"facts".as_slice() {
        return Err(SqlRefusal::Table(token.byte));
    }
    Ok(draft.goes(Due::Clauses))
}
