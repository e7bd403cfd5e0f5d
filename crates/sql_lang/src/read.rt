//! Reading the text of a query.
ghost use Rattle.std.specs.Prelude.{◌≡◌, IfOk, Ok};
ghost use Rattle.cube_schema.specs.Lawful.{IsSchema};
ghost use Rattle.sql_lang.specs.declared.query.Query as queries;
ghost use Rattle.sql_lang.specs.Agreeing.{SqlAgrees};
ghost use Rattle.sql_lang.specs.Answers.{Answers, judged};
ghost use Rattle.sql_lang.specs.Grammar.{Says};
ghost use Rattle.sql_lang.specs.Reading.{query_of, query_in, group_rules, read_on};

use crate::draft::{Draft, Due, Reader};
use crate::query::Query;
use crate::refusal::SqlRefusal;
use crate::token::Token;
use crate::tokens::{end_at, tokens_of};
use cube_schema::Schema;
use std::alloc::Global;

/// Reads the text of a query by a schema. The refusal is the first rule from the left that is broken, with the byte of its place; after
/// that, the first attribute among the items that is not grouped by. `Memory` comes only if memory was short.
pub fn read_sql(alloc: Global, schema: &Schema, text: &[u8]) -> Result<Query, SqlRefusal>
    requires { IsSchema schema.now }
    // The query, or the first rule that is broken.
    ensures exact { Answers result (query_of schema.now text.now) }
    ensures lawful { IfOk result (SqlAgrees schema.now) }
    // A text that is read says its query, and a text that says a query is read as that query.
    ensures said { IfOk result (λ query. Says schema.now query text.now) }
    ensures read { (query : queries.Query) → SqlAgrees schema.now query → Says schema.now query text.now → Answers result (Ok query) }
{
    read_text(alloc, schema, text)
}

#[tactic(auto, unfolding(crate::specs::Reading::query_of))]
fn read_text(alloc: Global, schema: &Schema, text: &[u8]) -> Result<Query, SqlRefusal>
    requires { IsSchema schema.now }
    ensures { Answers result (query_of schema.now text.now) }
{
    let end = text.len() as u64 + 1;
    let tokens = tokens_of(alloc, end, text)?;
    let start = Draft::new(alloc).goes(Due::Select);
    read_on(alloc, schema, end, start, &tokens)
}

/// The query of these tokens and the end at this byte, after what was read before them.
fn read_on(
    alloc: Global,
    schema: &Schema,
    end: u64,
    start: Reader,
    tokens: &[Token],
) -> Result<Query, SqlRefusal>
    requires { IsSchema schema.now }
    ensures { Answers result (read_on schema.now end start tokens.now) }
{
    let mut reader = start;
    for token in tokens {
        reader = reader.take(alloc, schema, token)?;
    }
    let last = reader.take(alloc, schema, &end_at(alloc, end))?;
    finished(last.draft)
}

/// The query, if each attribute among its items is grouped by.
fn finished(draft: Draft) -> Result<Query, SqlRefusal>
    ensures { result ≡ judged (query_in draft) (group_rules draft) }
{
    for named in draft.named.as_slice() {
        if !draft.group.as_slice().contains(&named.attr) {
            return Err(SqlRefusal::Group(named.byte));
        }
    }
    Ok(draft.into_query())
}
