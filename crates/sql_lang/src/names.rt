//! Names and literals of a query.
ghost use Rattle.std.specs.Prelude.{◌≡◌, IfOk};
ghost use Rattle.cube_schema.specs.Lawful.{IsSchema};
ghost use Rattle.sql_lang.specs.Answers.{Answers};
ghost use Rattle.sql_lang.specs.Reading.{attr_at, measure_at, is_literal, operand_in, operand_at, bound_in, bound_at};

use crate::query::Operand;
use crate::refusal::SqlRefusal;
use crate::token::Token;
use cube_schema::{Kind, Schema};
use fact_model::{LONGEST_TEXT, Memory, Text, read_number};
use std::alloc::Global;

/// The attribute of this name.
#[tactic(auto, using(cube_schema::proofs::Few::few_attrs))]
pub(crate) fn attr_at(schema: &Schema, token: &Token) -> Result<u32, SqlRefusal>
    requires { IsSchema schema.now }
    ensures { result ≡ attr_at schema.now token.now }
{
    if !token.is_name() {
        return Err(SqlRefusal::Syntax(token.byte));
    }
    match schema.attr_named(token.text.as_bytes()) {
        Some(attr) => Ok(attr),
        None => Err(SqlRefusal::Name(token.byte)),
    }
}

/// The measure of this name.
#[tactic(auto, using(cube_schema::proofs::Few::few_measures))]
pub(crate) fn measure_at(schema: &Schema, token: &Token) -> Result<u32, SqlRefusal>
    requires { IsSchema schema.now }
    ensures { result ≡ measure_at schema.now token.now }
{
    if !token.is_name() {
        return Err(SqlRefusal::Syntax(token.byte));
    }
    match schema.measure_named(token.text.as_bytes()) {
        Some(measure) => Ok(measure),
        None => Err(SqlRefusal::Name(token.byte)),
    }
}

/// Whether it is a text in quotes, or a number.
fn is_literal(token: &Token) -> bool
    ensures { result ≡ is_literal token.now }
{
    token.is_quoted() || token.is_whole()
}

/// The value that an attribute is compared with. A text is compared only by `=` and IN.
pub(crate) fn operand_at(
    alloc: Global,
    schema: &Schema,
    attr: u32,
    exact: bool,
    token: &Token,
) -> Result<Operand, SqlRefusal>
    ensures { Answers result (operand_at schema.now attr exact token.now) }
{
    if !is_literal(token) {
        return Err(SqlRefusal::Syntax(token.byte));
    }
    match operand_in(alloc, schema.kind_at(attr), exact, token)? {
        Some(operand) => Ok(operand),
        None => Err(SqlRefusal::Value(token.byte)),
    }
}

/// The value that an attribute of this kind may be compared with.
fn operand_in(
    alloc: Global,
    kind: Kind,
    exact: bool,
    token: &Token,
) -> Result<Option<Operand>, Memory>
    ensures { IfOk result (λ found. found ≡ operand_in kind exact token.now) }
{
    match kind {
        Kind::Word { .. } => {
            let text = token.text.as_bytes();
            if exact && token.is_quoted() && text.len() <= LONGEST_TEXT {
                return Ok(Some(Operand::Word(Text::from_bytes(alloc, text)?)));
            }
            Ok(None)
        }
        Kind::Number => match number_at(token) {
            Some(number) => Ok(Some(Operand::Whole(number))),
            None => Ok(None),
        },
    }
}

/// The number of a token.
fn number_at(token: &Token) -> Option<i128>
    ensures { result ≡ bound_in Kind.Number token.now }
{
    if token.is_whole() {
        return read_number(token.text.as_bytes());
    }
    None
}

/// The end of a range that an attribute may be compared with.
pub(crate) fn bound_at(schema: &Schema, attr: u32, token: &Token) -> Result<i128, SqlRefusal>
    ensures { result ≡ bound_at schema.now attr token.now }
{
    if !is_literal(token) {
        return Err(SqlRefusal::Syntax(token.byte));
    }
    match bound_in(schema.kind_at(attr), token) {
        Some(bound) => Ok(bound),
        None => Err(SqlRefusal::Value(token.byte)),
    }
}

/// The end of a range that an attribute of this kind may be compared with.
fn bound_in(kind: Kind, token: &Token) -> Option<i128>
    ensures { result ≡ bound_in kind token.now }
{
    match kind {
        Kind::Number => number_at(token),
        Kind::Word { .. } => None,
    }
}
