//! The tests of a query, and the attributes that it groups by.
ghost use Rattle.std.specs.Prelude.{◌≡◌};
ghost use Rattle.cube_schema.specs.Lawful.{IsSchema};
ghost use Rattle.sql_lang.specs.Answers.{Answers};
ghost use Rattle.sql_lang.specs.Reading.{at_test, at_sign, at_value, at_low, at_high, at_member, at_more_members, at_group, is_equal};

use crate::draft::{Draft, Due, Reader};
use crate::items::misfit;
use crate::names::{attr_at, bound_at, operand_at};
use crate::query::{OperandList, Sign, Test};
use crate::refusal::SqlRefusal;
use crate::token::Token;
use cube_schema::Schema;
use std::alloc::Global;

/// The attribute of a test.
#[tactic(auto, unfolding(crate::specs::Reading::at_test))]
pub(crate) fn at_test(schema: &Schema, draft: Draft, token: &Token) -> Result<Reader, SqlRefusal>
    requires { IsSchema schema.now }
    ensures { Answers result (at_test schema.now draft token.now) }
{
    let attr = attr_at(schema, token)?;
    Ok(draft.goes(Due::Sign(attr)))
}

/// What follows the attribute of a test.
#[tactic(auto, unfolding(crate::specs::Reading::at_sign))]
pub(crate) fn at_sign(draft: Draft, attr: u32, token: &Token) -> Result<Reader, SqlRefusal>
    ensures { Answers result (at_sign draft attr token.now) }
{
    if token.is_mark(b"=") {
        return Ok(draft.goes(Due::Value(attr, Sign::Equal)));
    }
    if token.is_mark(b"<") {
        return Ok(draft.goes(Due::Value(attr, Sign::Less)));
    }
    if token.is_mark(b"<=") {
        return Ok(draft.goes(Due::Value(attr, Sign::LessEqual)));
    }
    if token.is_mark(b">") {
        return Ok(draft.goes(Due::Value(attr, Sign::More)));
    }
    if token.is_mark(b">=") {
        return Ok(draft.goes(Due::Value(attr, Sign::MoreEqual)));
    }
    if token.is_word(b"BETWEEN") {
        return Ok(draft.goes(Due::Low(attr)));
    }
    if token.is_word(b"IN") {
        return Ok(draft.goes(Due::InOpen(attr)));
    }
    Err(misfit(token))
}

fn is_equal(sign: Sign) -> bool
    ensures { result ≡ is_equal sign }
{
    match sign {
        Sign::Equal => true,
        Sign::Less | Sign::LessEqual | Sign::More | Sign::MoreEqual => false,
    }
}

/// The value after an operator.
#[tactic(auto, unfolding(crate::specs::Reading::at_value))]
pub(crate) fn at_value(
    alloc: Global,
    schema: &Schema,
    draft: Draft,
    attr: u32,
    sign: Sign,
    token: &Token,
) -> Result<Reader, SqlRefusal>
    ensures { Answers result (at_value schema.now draft attr sign token.now) }
{
    let value = operand_at(alloc, schema, attr, is_equal(sign), token)?;
    let draft = draft.with_test(Test::Compare { attr, sign, value })?;
    Ok(draft.goes(Due::MoreTests))
}

/// The low end after BETWEEN.
#[tactic(auto, unfolding(crate::specs::Reading::at_low))]
pub(crate) fn at_low(
    schema: &Schema,
    draft: Draft,
    attr: u32,
    token: &Token,
) -> Result<Reader, SqlRefusal>
    ensures { Answers result (at_low schema.now draft attr token.now) }
{
    let low = bound_at(schema, attr, token)?;
    Ok(draft.goes(Due::LowAnd(attr, low)))
}

/// The high end after BETWEEN.
#[tactic(auto, unfolding(crate::specs::Reading::at_high))]
pub(crate) fn at_high(
    schema: &Schema,
    draft: Draft,
    attr: u32,
    low: i128,
    token: &Token,
) -> Result<Reader, SqlRefusal>
    ensures { Answers result (at_high schema.now draft attr low token.now) }
{
    let high = bound_at(schema, attr, token)?;
    let draft = draft.with_test(Test::Between { attr, low, high })?;
    Ok(draft.goes(Due::MoreTests))
}

/// One more value of an IN.
#[tactic(auto, unfolding(crate::specs::Reading::at_member))]
pub(crate) fn at_member(
    alloc: Global,
    schema: &Schema,
    draft: Draft,
    attr: u32,
    values: OperandList,
    token: &Token,
) -> Result<Reader, SqlRefusal>
    ensures { Answers result (at_member schema.now draft attr values token.now) }
{
    let value = operand_at(alloc, schema, attr, true, token)?;
    let mut values = values;
    values.push(value)?;
    Ok(draft.goes(Due::MoreMembers(attr, values)))
}

/// A comma and a value, or the end of an IN.
#[tactic(auto, unfolding(crate::specs::Reading::at_more_members))]
pub(crate) fn at_more_members(
    draft: Draft,
    attr: u32,
    values: OperandList,
    token: &Token,
) -> Result<Reader, SqlRefusal>
    ensures { Answers result (at_more_members draft attr values token.now) }
{
    if token.is_mark(b",") {
        return Ok(draft.goes(Due::Member(attr, values)));
    }
    if token.is_mark(b")") {
        let draft = draft.with_test(Test::OneOf { attr, values })?;
        return Ok(draft.goes(Due::MoreTests));
    }
    Err(misfit(token))
}

/// An attribute to group by.
#[tactic(auto, unfolding(crate::specs::Reading::at_group))]
pub(crate) fn at_group(schema: &Schema, draft: Draft, token: &Token) -> Result<Reader, SqlRefusal>
    requires { IsSchema schema.now }
    ensures { Answers result (at_group schema.now draft token.now) }
{
    let attr = attr_at(schema, token)?;
    if draft.group.as_slice().contains(&attr) {
        return Err(SqlRefusal::Group(token.byte));
    }
    let draft = draft.with_group(attr)?;
    Ok(draft.goes(Due::MoreGroups))
}
