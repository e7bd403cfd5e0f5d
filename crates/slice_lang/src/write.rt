//! Writing a slice as text.
ghost use Rattle.std.specs.Prelude.{◌≡◌, ◌∷◌, ◌++◌, IfOk, OnOk, map, flat_map, codes, decimal};
ghost use Rattle.cube_schema.specs.Kinds.{measure_name_at};
ghost use Rattle.cube_schema.specs.Lawful.{IsSchema};
ghost use Rattle.slice_lang.specs.Agreeing.{SliceAgrees};
ghost use Rattle.slice_lang.specs.Reading.{slice_of};
ghost use Rattle.slice_lang.specs.Writing.{over_text, column_text, columns_text, by_text, doubled, value_text, cond_text, where_text, slice_text};

use cube_schema::Schema;
use fact_model::{Column, Cond, Memory, Slice, Text, Value};
use itoa::Buffer;
use std::alloc::Global;

/// The text of a slice, which is read as that slice again where it agrees with the schema. Numbers are in plain decimal, and each text
/// value is quoted, with its quotes doubled. What is not declared has no name in the text.
#[tactic(auto, using(crate::proofs::SliceTexts::read_back))]
pub fn write_slice(alloc: Global, schema: &Schema, slice: &Slice) -> Result<Text, Memory>
    ensures written { IfOk result (λ text. text ≡ slice_text schema.now slice.now) }
    ensures read_back { IsSchema schema.now → SliceAgrees schema.now slice.now → IfOk result (λ text. slice_of schema.now text ≡ Ok slice.now) }
{
    text_of(alloc, schema, slice)
}

#[tactic(auto, unfolding(crate::specs::Writing::slice_text))]
fn text_of(alloc: Global, schema: &Schema, slice: &Slice) -> Result<Text, Memory>
    ensures { IfOk result (λ text. text ≡ slice_text schema.now slice.now) }
{
    let mut text = Vec::new(alloc);
    push_columns(&mut text, schema, slice.columns.as_slice())?;
    push_group(&mut text, schema, slice.group.as_slice())?;
    push_conds(&mut text, schema, slice.conds.as_slice())?;
    Ok(Text::from_vec(text))
}

fn push_columns(text: &mut Vec<u8>, schema: &Schema, columns: &[Column]) -> Result<(), Memory>
    ensures { OnOk result (text.new.items ≡ text.old.items ++ columns_text schema.now columns.now) }
{
    match columns {
        [] => Ok(()),
        [column, more @ ..] => {
            push_column(text, schema, column)?;
            push_more_columns(text, schema, more)
        }
    }
}

fn push_more_columns(text: &mut Vec<u8>, schema: &Schema, columns: &[Column]) -> Result<(), Memory>
    ensures { OnOk result (text.new.items ≡ text.old.items ++ flat_map (λ c. 44 ∷ column_text schema.now c) columns.now) }
{
    for column in columns {
        text.push(b',')?;
        push_column(text, schema, column)?;
    }
    Ok(())
}

fn push_column(text: &mut Vec<u8>, schema: &Schema, column: &Column) -> Result<(), Memory>
    ensures { OnOk result (text.new.items ≡ text.old.items ++ column_text schema.now column.now) }
{
    match column {
        Column::Count => Ok(text.extend_from_slice(b"count")?),
        Column::Sum(measure) => push_over(text, b"sum", schema, *measure),
        Column::Min(measure) => push_over(text, b"min", schema, *measure),
        Column::Max(measure) => push_over(text, b"max", schema, *measure),
    }
}

/// Pushes a word and the measure in parentheses.
fn push_over(text: &mut Vec<u8>, word: &[u8], schema: &Schema, measure: u32) -> Result<(), Memory>
    ensures { OnOk result (text.new.items ≡ text.old.items ++ over_text word.now (measure_name_at schema.now measure)) }
{
    text.extend_from_slice(word)?;
    text.push(b'(')?;
    text.extend_from_slice(schema.measure_name(measure))?;
    Ok(text.push(b')')?)
}

fn push_group(text: &mut Vec<u8>, schema: &Schema, attrs: &[u32]) -> Result<(), Memory>
    ensures { OnOk result (text.new.items ≡ text.old.items ++ by_text schema.now attrs.now) }
{
    match attrs {
        [] => Ok(()),
        _ => {
            text.extend_from_slice(b" by ")?;
            schema.push_names(text, attrs)
        }
    }
}

fn push_conds(text: &mut Vec<u8>, schema: &Schema, conds: &[Cond]) -> Result<(), Memory>
    ensures { OnOk result (text.new.items ≡ text.old.items ++ where_text (map (cond_text schema.now) conds.now)) }
{
    match conds {
        [] => Ok(()),
        [cond, more @ ..] => {
            text.extend_from_slice(b" where ")?;
            push_cond(text, schema, cond)?;
            push_more_conds(text, schema, more)
        }
    }
}

fn push_more_conds(text: &mut Vec<u8>, schema: &Schema, conds: &[Cond]) -> Result<(), Memory>
    ensures { OnOk result (text.new.items ≡ text.old.items ++ flat_map (λ t. codes " and " ++ t) (map (cond_text schema.now) conds.now)) }
{
    for cond in conds {
        text.extend_from_slice(b" and ")?;
        push_cond(text, schema, cond)?;
    }
    Ok(())
}

fn push_cond(text: &mut Vec<u8>, schema: &Schema, cond: &Cond) -> Result<(), Memory>
    ensures { OnOk result (text.new.items ≡ text.old.items ++ cond_text schema.now cond.now) }
{
    match cond {
        Cond::Equal { attr, value } => {
            schema.push_names(text, &[*attr])?;
            text.push(b'=')?;
            push_value(text, value)
        }
        Cond::Between { attr, low, high } => {
            schema.push_names(text, &[*attr])?;
            text.push(b'=')?;
            push_number(text, *low)?;
            text.extend_from_slice(b"..")?;
            push_number(text, *high)
        }
    }
}

fn push_value(text: &mut Vec<u8>, value: &Value) -> Result<(), Memory>
    ensures { OnOk result (text.new.items ≡ text.old.items ++ value_text value.now) }
{
    match value {
        Value::Word(word) => {
            text.push(b'"')?;
            push_doubled(text, word.as_bytes())?;
            Ok(text.push(b'"')?)
        }
        Value::Number(number) => push_number(text, *number),
    }
}

/// Pushes the bytes, with each quote doubled.
fn push_doubled(text: &mut Vec<u8>, bytes: &[u8]) -> Result<(), Memory>
    ensures { OnOk result (text.new.items ≡ text.old.items ++ flat_map doubled bytes.now) }
{
    for byte in bytes {
        if *byte == b'"' {
            text.push(b'"')?;
        }
        text.push(*byte)?;
    }
    Ok(())
}

fn push_number(text: &mut Vec<u8>, number: u64) -> Result<(), Memory>
    ensures { OnOk result (text.new.items ≡ text.old.items ++ decimal number) }
{
    Ok(text.extend_from_slice(Buffer::new().format(number).as_bytes())?)
}
