//! Reading one token.
ghost use Rattle.std.specs.Prelude.{◌≡◌};
ghost use Rattle.cube_schema.specs.Lawful.{IsSchema};
ghost use Rattle.sql_lang.specs.Answers.{Answers};
ghost use Rattle.sql_lang.specs.Reading.{at_due, along, item_ways, clause_ways, test_ways, group_or_end, group_ways};

use crate::conditions::{
    at_group, at_high, at_low, at_member, at_more_members, at_sign, at_test, at_value,
};
use crate::draft::{Draft, Due, Reader};
use crate::items::{along, at_close, at_item, at_measure, at_table, misfit};
use crate::query::OperandList;
use crate::refusal::SqlRefusal;
use crate::token::Token;
use cube_schema::Schema;
use fact_model::Column;
use std::alloc::Global;

impl Reader {
    /// What has been read, with one more token.
    #[tactic(auto, unfolding(crate::specs::Reading::at_due))]
    pub(crate) fn take(
        self,
        alloc: Global,
        schema: &Schema,
        token: &Token,
    ) -> Result<Reader, SqlRefusal>
        requires { IsSchema schema.now }
        ensures { Answers result (at_due schema.now self.draft self.due token.now) }
    {
        let Reader { due, draft } = self;
        match due {
            Due::Select => along(draft, token, token.is_word(b"SELECT"), Due::Item),
            Due::Item => at_item(schema, draft, token),
            Due::CountOpen => along(draft, token, token.is_mark(b"("), Due::CountStar),
            Due::CountStar => along(draft, token, token.is_mark(b"*"), Due::Close(Column::Count)),
            Due::FoldOpen(fold) => along(draft, token, token.is_mark(b"("), Due::Measure(fold)),
            Due::Measure(fold) => at_measure(schema, draft, fold, token),
            Due::Close(column) => at_close(draft, column, token),
            Due::MoreItems => more_items(draft, token),
            Due::Table => at_table(draft, token),
            Due::Clauses => clauses(draft, token),
            Due::Test => at_test(schema, draft, token),
            Due::Sign(attr) => at_sign(draft, attr, token),
            Due::Value(attr, sign) => at_value(alloc, schema, draft, attr, sign, token),
            Due::Low(attr) => at_low(schema, draft, attr, token),
            Due::LowAnd(attr, low) => {
                along(draft, token, token.is_word(b"AND"), Due::High(attr, low))
            }
            Due::High(attr, low) => at_high(schema, draft, attr, low, token),
            Due::InOpen(attr) => {
                let none = OperandList::new(alloc);
                along(draft, token, token.is_mark(b"("), Due::Member(attr, none))
            }
            Due::Member(attr, values) => at_member(alloc, schema, draft, attr, values, token),
            Due::MoreMembers(attr, values) => at_more_members(draft, attr, values, token),
            Due::MoreTests => more_tests(draft, token),
            Due::By => along(draft, token, token.is_word(b"BY"), Due::Group),
            Due::Group => at_group(schema, draft, token),
            Due::MoreGroups => more_groups(draft, token),
            Due::Nothing => Err(misfit(token)),
        }
    }
}

/// A comma and an item, or FROM.
fn more_items(draft: Draft, token: &Token) -> Result<Reader, SqlRefusal>
    ensures { Answers result (along draft token.now (item_ways token.now)) }
{
    if token.is_mark(b",") {
        return Ok(draft.goes(Due::Item));
    }
    along(draft, token, token.is_word(b"FROM"), Due::Table)
}

/// WHERE, GROUP or the end.
fn clauses(draft: Draft, token: &Token) -> Result<Reader, SqlRefusal>
    ensures { Answers result (along draft token.now (clause_ways token.now)) }
{
    if token.is_word(b"WHERE") {
        return Ok(draft.goes(Due::Test));
    }
    group_or_end(draft, token)
}

/// AND and a test, GROUP or the end.
fn more_tests(draft: Draft, token: &Token) -> Result<Reader, SqlRefusal>
    ensures { Answers result (along draft token.now (test_ways token.now)) }
{
    if token.is_word(b"AND") {
        return Ok(draft.goes(Due::Test));
    }
    group_or_end(draft, token)
}

/// GROUP or the end.
fn group_or_end(draft: Draft, token: &Token) -> Result<Reader, SqlRefusal>
    ensures { Answers result (along draft token.now (group_or_end token.now)) }
{
    if token.is_word(b"GROUP") {
        return Ok(draft.goes(Due::By));
    }
    along(draft, token, token.is_end(), Due::Nothing)
}

/// A comma and an attribute, or the end.
fn more_groups(draft: Draft, token: &Token) -> Result<Reader, SqlRefusal>
    ensures { Answers result (along draft token.now (group_ways token.now)) }
{
    if token.is_mark(b",") {
        return Ok(draft.goes(Due::Group));
    }
    along(draft, token, token.is_end(), Due::Nothing)
}
