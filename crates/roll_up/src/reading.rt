//! Reading a level.
ghost use Rattle.std.specs.Prelude.{◌≡◌, ◌++◌, ◌∷◌, [], Ok, IfOk, get_or, option_map};
ghost use Rattle.std.specs.List.{list_any};
ghost use Rattle.std.specs.Str.{bytes_eq};
ghost use Rattle.csv.specs.Records.{fields_of};
ghost use Rattle.cube_schema.specs.Lawful.{IsSchema};
ghost use Rattle.row_fold.specs.Lent as lent;
ghost use Rattle.roll_up.specs.Levels.{Fit};
ghost use Rattle.roll_up.specs.Reading.{Answers, after_row, is_free, level_of, parents_in, so_far_of, value_of};
ghost use Rattle.roll_up.specs.declared.level.Level as known;

use crate::level::{Level, LevelList, ParentList};
use crate::refusal::LevelRefusal;
use csv::ByteRecord;
use csv_text::{block_reader, read_record};
use cube_schema::{Kind, Schema, is_name};
use fact_model::{LONGEST_TEXT, Text};
use row_fold::LentValue;
use slice_lang::read_coordinate;
use std::alloc::Global;
use text_hash::Seed;

/// The most rows of a level.
const MOST_ROWS: u64 = 262_144;

/// The most attributes and levels together.
const MOST_ATTRS: usize = 16;

/// Reads a level of this name. Each row of the block has a value of the attribute and its parent. The values are hashed with this seed. A refusal is
/// the first reason against the level, in the order of the refusals; of several faulty rows it names the first.
pub fn read_level(
    alloc: Global,
    seed: Seed,
    schema: &Schema,
    levels: &LevelList,
    name: &Text,
    attr: &Text,
    block: &[u8],
) -> Result<Level, LevelRefusal>
    requires lawful { IsSchema schema.now }
    requires fit { Fit schema.now levels.now }
    // The level, or the first reason against it.
    ensures exact { Answers result (level_of schema.now levels.now name.now attr.now block.now) }
    // It fits after the others.
    ensures fits { IfOk result (λ level. Fit schema.now (levels.now ++ level ∷ [])) }
{
    read_named(
        alloc,
        seed,
        schema,
        levels.as_slice(),
        name.as_bytes(),
        attr.as_bytes(),
        block,
    )
}

fn read_named(
    alloc: Global,
    seed: Seed,
    schema: &Schema,
    levels: &[Level],
    name: &[u8],
    attr: &[u8],
    block: &[u8],
) -> Result<Level, LevelRefusal>
    requires { IsSchema schema.now }
    ensures { Answers result (level_of schema.now levels.now name.now attr.now block.now) }
{
    if !is_free(schema, levels, name) {
        return Err(LevelRefusal::Name);
    }
    let Some(number) = schema.attr_named(attr) else {
        return Err(LevelRefusal::Attribute);
    };
    if schema.attrs.as_slice().len() + levels.len() >= MOST_ATTRS {
        return Err(LevelRefusal::Many);
    }
    let parents = read_parents(alloc, seed, schema.kind_at(number), block)?;
    Ok(Level {
        name: Text::from_bytes(alloc, name)?,
        attr: number,
        parents,
    })
}

/// Whether the name is lawful, and no attribute, measure or level has it.
fn is_free(schema: &Schema, levels: &[Level], name: &[u8]) -> bool
    requires { IsSchema schema.now }
    ensures { result ≡ is_free schema.now levels.now name.now }
{
    is_name(name)
        && schema.attr_named(name).is_none()
        && schema.measure_named(name).is_none()
        && !is_level(levels, name)
}

/// Whether a level has the name.
fn is_level(levels: &[Level], name: &[u8]) -> bool
    ensures { result ≡ list_any (λ (l : known.Level). bytes_eq l.name name.now) levels.now }
{
    levels.iter().any(|level| level.name.as_bytes() == name)
}

/// The pairs of the rows of a block, or the first fault.
fn read_parents(
    alloc: Global,
    seed: Seed,
    kind: Kind,
    block: &[u8],
) -> Result<ParentList, LevelRefusal>
    ensures { Answers result (parents_in kind block.now) }
{
    let mut reader = block_reader(alloc, block);
    let mut fields = ByteRecord::new(alloc);
    let mut parents = ParentList::new(alloc, seed);
    let mut so_far: Result<(), LevelRefusal> = Ok(());
    // Too many rows come before any other fault, so the records after the first fault are counted too.
    for row in 0..MOST_ROWS {
        if !read_record(&mut reader, &mut fields)? {
            return parents_from(parents, so_far);
        }
        so_far = with_row(alloc, kind, row + 1, &fields, &mut parents, so_far);
    }
    if read_record(&mut reader, &mut fields)? {
        return Err(LevelRefusal::Rows);
    }
    parents_from(parents, so_far)
}

/// Adds the pair of the next row to those so far, or returns the first fault.
fn with_row(
    alloc: Global,
    kind: Kind,
    row: u64,
    fields: &ByteRecord,
    parents: &mut ParentList,
    so_far: Result<(), LevelRefusal>,
) -> Result<(), LevelRefusal>
    ensures { Answers (so_far_of result parents.new) (after_row kind row (fields_of fields.now) (so_far_of so_far parents.old)) }
{
    so_far?;
    read_row(alloc, kind, row, fields, parents)
}

/// Adds the pair of a row, or returns its first fault. After a fault the pairs are unspecified.
fn read_row(
    alloc: Global,
    kind: Kind,
    row: u64,
    fields: &ByteRecord,
    parents: &mut ParentList,
) -> Result<(), LevelRefusal>
    ensures { Answers (so_far_of result parents.new) (after_row kind row (fields_of fields.now) (so_far_of (Ok tt) parents.old)) }
{
    if fields.len() != 2 {
        return Err(LevelRefusal::Fields(row));
    }
    let Some(value) = read_value(kind, field(fields, 0)) else {
        return Err(LevelRefusal::Number(row));
    };
    if field(fields, 0).len() > LONGEST_TEXT {
        return Err(LevelRefusal::Long { row, field: 1 });
    }
    if field(fields, 1).len() > LONGEST_TEXT {
        return Err(LevelRefusal::Long { row, field: 2 });
    }
    if !parents.add(alloc, value, field(fields, 1))? {
        return Err(LevelRefusal::Repeated(row));
    }
    Ok(())
}

/// The value of an attribute that a field writes, if it writes one.
fn read_value(kind: Kind, bytes: &[u8]) -> Option<LentValue<'_>>
    ensures { option_map lent.value_of result ≡ value_of kind bytes.now }
{
    match kind {
        Kind::Word { .. } => Some(LentValue::Word(bytes)),
        Kind::Number => match read_coordinate(bytes) {
            Some(number) => Some(LentValue::Number(number)),
            None => None,
        },
    }
}

/// The pairs, or the first fault.
fn parents_from(
    parents: ParentList,
    so_far: Result<(), LevelRefusal>,
) -> Result<ParentList, LevelRefusal>
    ensures { result ≡ so_far_of so_far parents }
{
    match so_far {
        Ok(()) => Ok(parents),
        Err(refusal) => Err(refusal),
    }
}

/// The field at this index, counted from 0; empty past the last one.
fn field(fields: &ByteRecord, place: usize) -> &[u8]
    ensures { result.now ≡ get_or (fields_of fields.now) place [] }
{
    fields.get(place).unwrap_or(&[])
}
