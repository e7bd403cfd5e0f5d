//! The columns of a slice, and the attributes by which facts are grouped.
ghost use Rattle.std.specs.Prelude.{◌≡◌, ◌<◌, length};
ghost use Rattle.cube_schema.specs.Lawful.{IsSchema};
ghost use Rattle.slice_lang.specs.Answers.{Answers};
ghost use Rattle.slice_lang.specs.Reading.{is_fold, column_over, count_in, measured_in, column_in, columns_in, name_of_group, group_in};

use crate::names::{name_in, read_attr};
use crate::parts::{Part, byte_of, parts_of};
use crate::refusal::SliceRefusal;
use cube_schema::Schema;
use fact_model::{AttrList, Column, ColumnList};
use std::alloc::Global;

/// The columns of a part, which has commas between them.
pub(crate) fn read_columns(
    alloc: Global,
    schema: &Schema,
    part: &Part,
) -> Result<ColumnList, SliceRefusal>
    requires { IsSchema schema.now }
    ensures { Answers result (columns_in schema.now part.now) }
{
    let items = parts_of(alloc, b',', part.end(), part.text())?;
    let mut columns = ColumnList::new(alloc);
    for item in items.as_slice() {
        columns.push(read_column(schema, item)?)?;
    }
    Ok(columns)
}

/// The column of a part.
#[tactic(auto, unfolding(crate::specs::Reading::column_in))]
fn read_column(schema: &Schema, part: &Part) -> Result<Column, SliceRefusal>
    requires { IsSchema schema.now }
    ensures { result ≡ column_in schema.now part.now }
{
    let (word, behind) = name_in(part.text());
    if word == b"count".as_slice() {
        return read_count(part.end(), part.text());
    }
    match behind.strip_prefix(b"(") {
        Some(text) if is_fold(word) => read_measured(schema, word, part.end(), text),
        _ => Err(SliceRefusal::Syntax(byte_of(part.end(), part.text()))),
    }
}

/// Whether the word makes one number of the numbers of a measure.
fn is_fold(word: &[u8]) -> bool
    ensures { result ≡ is_fold word.now }
{
    word == b"sum".as_slice() || word == b"min".as_slice() || word == b"max".as_slice()
}

/// The column `count`, in front of which `text` begins.
#[tactic(auto, unfolding(crate::specs::Reading::count_in))]
fn read_count(end: u64, text: &[u8]) -> Result<Column, SliceRefusal>
    requires { length text.now < end }
    ensures { result ≡ count_in end text.now }
{
    let (_, behind) = name_in(text);
    if behind.starts_with(b"(") {
        return Err(SliceRefusal::Syntax(byte_of(end, text)));
    }
    if !behind.is_empty() {
        return Err(SliceRefusal::Syntax(byte_of(end, behind)));
    }
    Ok(Column::Count)
}

/// The column of a word over the measure that is named at the front of `text`.
#[tactic(auto, using(cube_schema::proofs::Few::few_measures), unfolding(crate::specs::Reading::measured_in))]
fn read_measured(
    schema: &Schema,
    word: &[u8],
    end: u64,
    text: &[u8],
) -> Result<Column, SliceRefusal>
    requires lawful { IsSchema schema.now }
    requires room { length text.now < end }
    ensures { result ≡ measured_in schema.now word.now end text.now }
{
    let (name, behind) = name_in(text);
    if name.is_empty() {
        return Err(SliceRefusal::Syntax(byte_of(end, text)));
    }
    let Some(measure) = schema.measure_named(name) else {
        return Err(SliceRefusal::UnknownMeasure(byte_of(end, text)));
    };
    match behind.strip_prefix(b")") {
        Some([]) => Ok(column_over(word, measure)),
        Some(more) => Err(SliceRefusal::Syntax(byte_of(end, more))),
        None => Err(SliceRefusal::Syntax(byte_of(end, behind))),
    }
}

fn column_over(word: &[u8], measure: u32) -> Column
    ensures { result ≡ column_over word.now measure }
{
    if word == b"sum".as_slice() {
        return Column::Sum(measure);
    }
    if word == b"min".as_slice() {
        return Column::Min(measure);
    }
    Column::Max(measure)
}

/// The attributes of a part, which has commas between their names.
pub(crate) fn read_group(
    alloc: Global,
    schema: &Schema,
    part: &Part,
) -> Result<AttrList, SliceRefusal>
    requires { IsSchema schema.now }
    ensures { Answers result (group_in schema.now part.now) }
{
    let items = parts_of(alloc, b',', part.end(), part.text())?;
    let mut group = AttrList::new(alloc);
    for item in items.as_slice() {
        let attr = read_name(schema, group.as_slice(), item)?;
        group.push(attr)?;
    }
    Ok(group)
}

/// The attribute of a part, which is none of these.
#[tactic(auto, unfolding(crate::specs::Reading::name_of_group))]
fn read_name(schema: &Schema, group: &[u32], part: &Part) -> Result<u32, SliceRefusal>
    requires { IsSchema schema.now }
    ensures { result ≡ name_of_group schema.now group.now part.now }
{
    let named = read_attr(schema, part.end(), part.text())?;
    if group.contains(&named.attr()) {
        return Err(SliceRefusal::Repeated(byte_of(part.end(), part.text())));
    }
    if !named.behind().is_empty() {
        return Err(SliceRefusal::Syntax(byte_of(part.end(), named.behind())));
    }
    Ok(named.attr())
}
