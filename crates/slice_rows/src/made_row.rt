//! The rows of points, made.
ghost use Rattle.std.specs.Prelude.{◌≡◌, ◌<◌, All, IfOk, get_or, length, map};
ghost use Rattle.spec_points.specs.Answer.{column_of, row_from};
ghost use Rattle.point_groups.specs.Bare.{nowhere};
ghost use Rattle.slice_rows.specs.Grouped.{key_of_entry, keyed, value_at_code};

use crate::keys::coordinate;
use crate::order_index::OrderedPoints;
use attr_dict::{Dicts, ValueRef};
use fact_model::{Column, ListOf, Memory, NumberList, Row, Rows, Slice, Text, Value, ValueList};
use point_groups::FlatPoints;
use std::alloc::Global;

/// The row of each point.
pub(crate) fn rows_made(
    alloc: Global,
    names: &Dicts,
    view: &[u32],
    slice: &Slice,
    points: &OrderedPoints,
) -> Result<Rows, Memory>
    requires { All (λ a. a < length names.now.kinds) slice.now.group }
    ensures { IfOk result (λ rows. rows ≡ map (row_from slice.now.columns) (map (keyed names.now view.now slice.now.group) points.now)) }
{
    let mut rows = ListOf::new(alloc);
    for place in 0..points.len() {
        let (points, number) = points.at(place);
        rows.push(row_made(alloc, names, view, slice, points, number)?)?;
    }
    Ok(rows)
}

/// The row of a point.
fn row_made(
    alloc: Global,
    names: &Dicts,
    view: &[u32],
    slice: &Slice,
    points: &FlatPoints,
    number: usize,
) -> Result<Row, Memory>
    requires { All (λ a. a < length names.now.kinds) slice.now.group }
    ensures { IfOk result (λ row. row ≡ row_from slice.now.columns (keyed names.now view.now slice.now.group (get_or points.now number nowhere))) }
{
    Ok(Row {
        key: key_made(alloc, names, view, slice.group.as_slice(), points, number)?,
        numbers: numbers_made(alloc, slice.columns.as_slice(), points, number)?,
    })
}

/// The values of the grouped attributes at a point.
fn key_made(
    alloc: Global,
    names: &Dicts,
    view: &[u32],
    group: &[u32],
    points: &FlatPoints,
    number: usize,
) -> Result<ValueList, Memory>
    requires { All (λ a. a < length names.now.kinds) group.now }
    ensures { IfOk result (λ key. key ≡ key_of_entry names.now view.now group.now (get_or points.now number nowhere)) }
{
    let mut key = Vec::with_capacity(alloc, group.len())?;
    for attr in group {
        let code = coordinate(view, points, number, *attr);
        key.push(value_made(alloc, names, *attr, code)?)?;
    }
    Ok(ListOf::from_vec(key))
}

/// The value that a coordinate of an attribute stands for, and the number 0 where there is none.
fn value_made(alloc: Global, names: &Dicts, attr: u32, code: u64) -> Result<Value, Memory>
    requires { attr < length names.now.kinds }
    ensures { IfOk result (λ value. value ≡ value_at_code names.now attr code) }
{
    match names.value_of(attr, code) {
        Some(ValueRef::Word(text)) => {
            let copy = Text::from_bytes(alloc, text)?;
            Ok(Value::Word(copy))
        }
        Some(ValueRef::Number(number)) => Ok(Value::Number(number)),
        None => Ok(Value::Number(0)),
    }
}

/// The columns of a cell.
fn numbers_made(
    alloc: Global,
    columns: &[Column],
    points: &FlatPoints,
    number: usize,
) -> Result<NumberList, Memory>
    ensures { IfOk result (λ numbers. numbers ≡ map (column_of (get_or points.now number nowhere).cell) columns.now) }
{
    let mut numbers = Vec::with_capacity(alloc, columns.len())?;
    for column in columns {
        numbers.push(points.column(number, *column))?;
    }
    Ok(ListOf::from_vec(numbers))
}
