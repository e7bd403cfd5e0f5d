//! The slice that a query is answered from.
ghost use Rattle.std.specs.Prelude.{◌≡◌, ◌≤◌, ◌++◌, IfOk, OnOk, length, map, flat_map, not, true, false};
ghost use Rattle.std.specs.Str.{bytes_eq};
ghost use Rattle.std.specs.List.{list_any};
ghost use Rattle.cube_schema.specs.Kinds.{arity};
ghost use Rattle.fact_model.specs.declared.fact.Fact as facts;
ghost use Rattle.fact_model.specs.Slice.{holds};
ghost use Rattle.cube_schema.specs.Agreeing.{Agrees};
ghost use Rattle.cube_schema.specs.Lawful.{IsSchema};
ghost use Rattle.slice_lang.specs.Agreeing.{SliceAgrees};
ghost use Rattle.sql_lang.specs.Agreeing.{SqlAgrees};
ghost use Rattle.sql_lang.specs.Tests as tests;
ghost use Rattle.sql_lang.specs.Tests.{holds_ends};
ghost use Rattle.sql_slice.specs.Ends.{number_cond};
ghost use Rattle.sql_slice.specs.Plans.{plan_of, columns_in, or_count, is_listed, is_more, attrs_of, base_group, text_cond, cond_on, cond_of, do_differ, clash_on, clash_of, has_other, texts_in};

use crate::ends::{end_in, is_bound, start_in, texts_in};
use crate::planned::Plan;
use cube_schema::{Kind, Schema};
use fact_model::{AttrList, Column, ColumnList, Cond, CondList, Memory, Slice, Text, Value};
use sql_lang::{Item, Query, Test};
use std::alloc::Global;

/// How a query is answered: the slice whose rows have what its items want of each value of its groups and of the attributes of IN, and
/// whether no fact can meet its tests.
pub fn plan(alloc: Global, schema: &Schema, query: &Query) -> Result<Plan, Memory>
    requires { IsSchema schema.now }
    ensures exact { IfOk result (λ plan. plan ≡ plan_of schema.now query.now) }
    ensures agrees { SqlAgrees schema.now query.now → IfOk result (λ plan. SliceAgrees schema.now plan.slice) }
    // A fact meets the conditions exactly where it meets all tests but those by IN, and no fact meets the tests of an empty plan.
    ensures met { SqlAgrees schema.now query.now → (x : facts.Fact) → Agrees schema.now x
        → IfOk result (λ plan. plan.empty ≡ false → holds plan.slice x ≡ holds_ends query.now.tests x) }
    ensures unmet { (x : facts.Fact) → IfOk result (λ plan. plan.empty ≡ true → tests.holds query.now.tests x ≡ false) }
{
    plan_for(alloc, schema, query)
}

#[tactic(auto, unfolding(crate::specs::Plans::plan_of), using(cube_schema::proofs::Few::few_attrs))]
fn plan_for(alloc: Global, schema: &Schema, query: &Query) -> Result<Plan, Memory>
    requires { IsSchema schema.now }
    ensures { IfOk result (λ plan. plan ≡ plan_of schema.now query.now) }
{
    let slice = Slice {
        columns: columns_of(alloc, query.items.as_slice())?,
        group: group_of(alloc, schema, query)?,
        conds: conds_of(alloc, schema, query.tests.as_slice())?,
    };
    let empty = do_clash(alloc, schema, query.tests.as_slice())?;
    Ok(Plan { slice, empty })
}

/// The columns among the items, or `count` where there is none.
fn columns_of(alloc: Global, items: &[Item]) -> Result<ColumnList, Memory>
    ensures { IfOk result (λ columns. columns ≡ or_count (columns_in items.now)) }
{
    let mut columns = columns_in(alloc, items)?;
    if columns.as_slice().is_empty() {
        columns.push(Column::Count)?;
    }
    Ok(columns)
}

/// The columns among the items.
fn columns_in(alloc: Global, items: &[Item]) -> Result<ColumnList, Memory>
    ensures { IfOk result (λ columns. columns ≡ columns_in items.now) }
{
    let mut columns = ColumnList::new(alloc);
    for item in items {
        if let Item::Column(column) = item {
            columns.push(*column)?;
        }
    }
    Ok(columns)
}

/// Whether a test by IN is on the attribute.
fn is_listed(tests: &[Test], attr: u32) -> bool
    ensures { result ≡ is_listed tests.now attr }
{
    tests
        .iter()
        .any(|test| test.is_list() && test.attr() == attr)
}

/// How many attributes are declared.
fn arity(schema: &Schema) -> u32
    requires { length schema.now.attrs ≤ 16 }
    ensures { result ≡ arity schema.now }
{
    schema.attrs.as_slice().len() as u32
}

/// Whether it is an attribute of IN that is not among the groups.
fn is_more(query: &Query, attr: u32) -> bool
    ensures { result ≡ is_more query.now attr }
{
    is_listed(query.tests.as_slice(), attr) && !query.group.as_slice().contains(&attr)
}

/// The groups of the query, and then the attributes of IN that are not among them.
#[tactic(auto, using(crate::proofs::Ranges::range_step, crate::proofs::Ranges::range_end))]
fn group_of(alloc: Global, schema: &Schema, query: &Query) -> Result<AttrList, Memory>
    requires { length schema.now.attrs ≤ 16 }
    ensures { IfOk result (λ group. group ≡ base_group schema.now query.now) }
{
    let mut group = grouped(alloc, query.group.as_slice())?;
    for attr in 0..arity(schema) {
        if is_more(query, attr) {
            group.push(attr)?;
        }
    }
    Ok(group)
}

/// The same attributes once more.
fn grouped(alloc: Global, attrs: &[u32]) -> Result<AttrList, Memory>
    ensures { IfOk result (λ group. group ≡ attrs.now) }
{
    Ok(AttrList::from_vec(Vec::from_slice(alloc, attrs)?))
}

/// A condition on each attribute on which a test other than IN is.
#[tactic(auto, using(crate::proofs::Ranges::range_step, crate::proofs::Ranges::range_end))]
fn conds_of(alloc: Global, schema: &Schema, tests: &[Test]) -> Result<CondList, Memory>
    requires { length schema.now.attrs ≤ 16 }
    ensures { IfOk result (λ conds. conds ≡ flat_map (cond_of schema.now tests.now) (attrs_of schema.now)) }
{
    let mut conds = CondList::new(alloc);
    for attr in 0..arity(schema) {
        push_cond(alloc, &mut conds, tests, attr, schema.kind_at(attr))?;
    }
    Ok(conds)
}

/// Pushes the condition on an attribute of this kind, if a test other than IN is on it.
#[tactic(auto, using(crate::proofs::Among::number_among))]
fn push_cond(
    alloc: Global,
    conds: &mut CondList,
    tests: &[Test],
    attr: u32,
    kind: Kind,
) -> Result<(), Memory>
    ensures { OnOk result (conds.new ≡ conds.old ++ cond_on tests.now attr kind) }
{
    match kind {
        Kind::Word { .. } => push_text_cond(alloc, conds, tests, attr),
        Kind::Number => {
            if is_bound(tests, attr) {
                let cond = number_cond(attr, start_in(tests, attr), end_in(tests, attr));
                conds.push(cond)?;
            }
            Ok(())
        }
    }
}

/// Pushes the condition that a text attribute has the first text that is wanted of it.
fn push_text_cond(
    alloc: Global,
    conds: &mut CondList,
    tests: &[Test],
    attr: u32,
) -> Result<(), Memory>
    ensures { OnOk result (conds.new ≡ conds.old ++ text_cond attr (texts_in attr tests.now)) }
{
    let texts = texts_in(alloc, tests, attr)?;
    if let [text, ..] = texts.as_slice() {
        let value = Value::Word(Text::from_bytes(alloc, *text)?);
        conds.push(Cond::Equal { attr, value })?;
    }
    Ok(())
}

/// The condition that an attribute is a number from the start on that comes before the end.
fn number_cond(attr: u32, start: u64, end: u64) -> Cond
    ensures { result ≡ number_cond attr start end }
{
    if start >= end {
        return Cond::Between {
            attr,
            low: 1,
            high: 0,
        };
    }
    if start + 1 == end {
        return Cond::Equal {
            attr,
            value: Value::Number(start),
        };
    }
    Cond::Between {
        attr,
        low: start,
        high: end - 1,
    }
}

/// Whether two equalities on one text attribute want different texts.
#[tactic(auto, using(crate::proofs::Ranges::range_step, crate::proofs::Ranges::range_end))]
fn do_clash(alloc: Global, schema: &Schema, tests: &[Test]) -> Result<bool, Memory>
    requires { length schema.now.attrs ≤ 16 }
    ensures { IfOk result (λ clash. clash ≡ list_any (clash_of schema.now tests.now) (attrs_of schema.now)) }
{
    for attr in 0..arity(schema) {
        if clash_on(alloc, tests, attr, schema.kind_at(attr))? {
            return Ok(true);
        }
    }
    Ok(false)
}

/// The same of one attribute.
fn clash_on(alloc: Global, tests: &[Test], attr: u32, kind: Kind) -> Result<bool, Memory>
    ensures { IfOk result (λ clash. clash ≡ clash_on tests.now attr kind) }
{
    match kind {
        Kind::Word { .. } => Ok(do_differ(&texts_in(alloc, tests, attr)?)),
        Kind::Number => Ok(false),
    }
}

/// Whether two of the texts differ.
#[tactic(auto, using(crate::proofs::TextSteps::differ_first))]
fn do_differ(texts: &[&[u8]]) -> bool
    ensures { result ≡ do_differ (map (λ text. text.now) texts.now) }
{
    match texts {
        [text, ..] => has_other(texts, *text),
        [] => false,
    }
}

/// Whether one of the texts is not this one.
fn has_other(texts: &[&[u8]], text: &[u8]) -> bool
    ensures { result ≡ has_other text.now (map (λ other. other.now) texts.now) }
{
    for other in texts {
        if differ(text, *other) {
            return true;
        }
    }
    false
}

fn differ(first: &[u8], second: &[u8]) -> bool
    ensures { result ≡ not (bytes_eq first.now second.now) }
{
    first != second
}
