//! The conditions of a slice.
ghost use Rattle.std.specs.Prelude.{◌≡◌, ◌<◌, length};
ghost use Rattle.std.specs.List.{list_any};
ghost use Rattle.cube_schema.specs.Lawful.{IsSchema};
ghost use Rattle.slice_lang.specs.Answers.{Answers};
ghost use Rattle.slice_lang.specs.Reading.{is_on, value_in, cond_in, all_conds_in};

use crate::names::read_attr;
use crate::parts::{Part, byte_of};
use crate::refusal::SliceRefusal;
use crate::values::read_written;
use cube_schema::Schema;
use fact_model::{Cond, CondList};
use std::alloc::Global;

/// The first condition, and those that follow it, each behind an `and`.
pub(crate) fn read_conds(
    alloc: Global,
    schema: &Schema,
    first: &Part,
    more: &[Part],
) -> Result<CondList, SliceRefusal>
    requires { IsSchema schema.now }
    ensures { Answers result (all_conds_in schema.now first.now more.now) }
{
    let mut conds = CondList::new(alloc);
    let cond = read_cond(alloc, schema, conds.as_slice(), first)?;
    conds.push(cond)?;
    let mut more = more;
    while let [word, next, rest @ ..] = more {
        if !word.is_word(b"and") {
            return Err(SliceRefusal::Syntax(word.before()));
        }
        let cond = read_cond(alloc, schema, conds.as_slice(), next)?;
        conds.push(cond)?;
        more = rest;
    }
    match more {
        [word] => Err(SliceRefusal::Syntax(word.before())),
        _ => Ok(conds),
    }
}

/// The condition of a part, which is on an attribute on which none of these is.
#[tactic(auto, unfolding(crate::specs::Reading::cond_in))]
fn read_cond(
    alloc: Global,
    schema: &Schema,
    conds: &[Cond],
    part: &Part,
) -> Result<Cond, SliceRefusal>
    requires { IsSchema schema.now }
    ensures { Answers result (cond_in schema.now conds.now part.now) }
{
    let named = read_attr(schema, part.end(), part.text())?;
    if has_cond(conds, named.attr()) {
        return Err(SliceRefusal::Repeated(byte_of(part.end(), part.text())));
    }
    match named.behind().strip_prefix(b"=") {
        Some(text) => read_value(alloc, schema, named.attr(), part.end(), text),
        None => Err(SliceRefusal::Syntax(byte_of(part.end(), named.behind()))),
    }
}

/// Whether one of the conditions is on the attribute.
fn has_cond(conds: &[Cond], attr: u32) -> bool
    ensures { result ≡ list_any (is_on attr) conds.now }
{
    conds.iter().any(|cond| attr == cond.attr())
}

/// The condition of an attribute by the value that is written at the front of a text, and nothing more.
#[tactic(auto, unfolding(crate::specs::Reading::value_in))]
fn read_value(
    alloc: Global,
    schema: &Schema,
    attr: u32,
    end: u64,
    text: &[u8],
) -> Result<Cond, SliceRefusal>
    requires { length text.now < end }
    ensures { Answers result (value_in schema.now attr end text.now) }
{
    let written = read_written(alloc, end, text)?;
    let behind = written.behind();
    let Some(cond) = written.meaning(schema.kind_at(attr), attr) else {
        return Err(SliceRefusal::BadValue(byte_of(end, text)));
    };
    if !behind.is_empty() {
        return Err(SliceRefusal::Syntax(byte_of(end, behind)));
    }
    Ok(cond)
}
