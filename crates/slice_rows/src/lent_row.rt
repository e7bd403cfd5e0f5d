//! The rows of points, lent.
ghost use Rattle.std.specs.Prelude.{◌≡◌, ◌<◌, All, OnOk, get_or, length, map};
ghost use Rattle.row_fold.specs.Lent.{row_in, value_of};
ghost use Rattle.spec_points.specs.Answer.{column_of, row_from};
ghost use Rattle.point_groups.specs.Bare.{nowhere};
ghost use Rattle.slice_rows.specs.Grouped.{key_of_entry, keyed, value_at_code};

use crate::keys::coordinate;
use attr_dict::{Dicts, ValueRef};
use fact_model::{Column, Memory, Slice};
use point_groups::FlatPoints;
use row_fold::{LentRow, LentValue};

/// Makes a row the one of a point.
pub(crate) fn lend_row<'a>(
    names: &'a Dicts,
    view: &[u32],
    slice: &Slice,
    points: &FlatPoints,
    number: usize,
    row: &mut LentRow<'a>,
) -> Result<(), Memory>
    requires { All (λ a. a < length names.now.kinds) slice.now.group }
    ensures { OnOk result (row_in row.new ≡ row_from slice.now.columns (keyed names.now view.now slice.now.group (get_or points.now number nowhere))) }
{
    lend_key(
        names,
        view,
        slice.group.as_slice(),
        points,
        number,
        &mut row.key,
    )?;
    lend_numbers(slice.columns.as_slice(), points, number, &mut row.numbers)
}

/// Lends the values of the grouped attributes at a point.
fn lend_key<'a>(
    names: &'a Dicts,
    view: &[u32],
    group: &[u32],
    points: &FlatPoints,
    number: usize,
    key: &mut Vec<LentValue<'a>>,
) -> Result<(), Memory>
    requires { All (λ a. a < length names.now.kinds) group.now }
    ensures { OnOk result (map value_of key.new.items ≡ key_of_entry names.now view.now group.now (get_or points.now number nowhere)) }
{
    key.clear();
    for attr in group {
        let code = coordinate(view, points, number, *attr);
        key.push(lent_value(names, *attr, code))?;
    }
    Ok(())
}

/// The value that a coordinate of an attribute stands for, and the number 0 where there is none.
fn lent_value(names: &Dicts, attr: u32, code: u64) -> LentValue<'_>
    requires { attr < length names.now.kinds }
    ensures { value_of result ≡ value_at_code names.now attr code }
{
    match names.value_of(attr, code) {
        Some(ValueRef::Word(text)) => LentValue::Word(text),
        Some(ValueRef::Number(number)) => LentValue::Number(number),
        None => LentValue::Number(0),
    }
}

/// Makes these numbers the columns of a cell.
fn lend_numbers(
    columns: &[Column],
    points: &FlatPoints,
    number: usize,
    numbers: &mut Vec<i128>,
) -> Result<(), Memory>
    ensures { OnOk result (numbers.new.items ≡ map (column_of (get_or points.now number nowhere).cell) columns.now) }
{
    numbers.clear();
    for column in columns {
        numbers.push(points.column(number, *column))?;
    }
    Ok(())
}
