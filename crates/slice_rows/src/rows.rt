//! The rows of a slice, which are made as they are written or lent.
ghost use Rattle.std.specs.Prelude.{◌≡◌, ◌<◌, ◌↔◌, [], pos, All, IfOk, IsTrue, OnErr, OnOk, get_or, length, map};
ghost use Rattle.std.specs.Fmt.{signed_decimal};
ghost use Rattle.csv_text.specs.Rows.{nothing_written, row_fields, value_text, with_end, with_field, with_fields, with_rows};
ghost use Rattle.fact_model.specs.Adds.{AddUp, number_in};
ghost use Rattle.fact_model.specs.declared.slice.Row as answers;
ghost use Rattle.spec_points.specs.Answer.{column_of, row_from};
ghost use Rattle.point_groups.specs.Bare.{nowhere};
ghost use Rattle.slice_rows.specs.Grouped.{key_of_entry, keyed, value_at_code};

use crate::column_sums::add_up;
use crate::keys::coordinate;
use crate::lent_row::lend_row;
use crate::made_row::rows_made;
use crate::order_index::OrderedPoints;
use attr_dict::{Dicts, ValueRef};
use csv_text::RowWriter;
use fact_model::{Column, Memory, Rows, Slice};
use point_groups::FlatPoints;
use row_fold::{LentRow, LentRows};
use std::alloc::Global;
use std::marker::Model;

/// The rows of a slice, which contracts see as the list of the rows. Of each there is the point that it is of; its values and numbers are
/// looked up as it is written or lent.
#[derive(Drop)]
pub struct SliceRows<'a> {
    names: &'a Dicts,
    view: &'a [u32],
    slice: &'a Slice,
    points: OrderedPoints,
}

impl<'a> Model for SliceRows<'a> {
    ghost use Rattle.std.specs.Prelude.{◌<◌, List, All, length, map};
    ghost use Rattle.fact_model.specs.declared.slice.Row.{Row};
    ghost use Rattle.spec_points.specs.Answer.{row_from};
    ghost use Rattle.slice_rows.specs.Grouped.{keyed};

    ghost Value = { List Row };

    ghost view = { λ r. map (row_from r.slice.now.columns) (map (keyed r.names.now r.view.now r.slice.now.group) r.points) };

    ghost invariant = { λ r. All (λ a. a < length r.names.now.kinds) r.slice.now.group };
}

impl<'a> SliceRows<'a> {
    /// The row of each point, in the order of the points.
    pub(crate) fn new(
        names: &'a Dicts,
        view: &'a [u32],
        slice: &'a Slice,
        points: OrderedPoints,
    ) -> SliceRows<'a>
        requires { All (λ a. a < length names.now.kinds) slice.now.group }
        ensures { result ≡ map (row_from slice.now.columns) (map (keyed names.now view.now slice.now.group) points) }
    {
        SliceRows {
            names,
            view,
            slice,
            points,
        }
    }

    /// How many rows there are.
    pub fn len(&self) -> usize
        ensures { result ≡ length self.now }
    {
        self.points.len()
    }

    /// The rows, each with its values and numbers made.
    pub fn to_rows(&self, alloc: Global) -> Result<Rows, Memory>
        ensures { IfOk result (λ rows. rows ≡ self.now) }
    {
        rows_made(alloc, self.names, self.view, self.slice, &self.points)
    }

    /// Whether in each column of numbers the magnitudes add up to at most 2^127 - 1. Those of the rows of facts within their masses do. It
    /// takes no memory.
    pub fn adds(&self) -> bool
        ensures { IsTrue result ↔ AddUp self.now }
    {
        add_up(self)
    }

    /// How many columns of numbers there are.
    pub(crate) fn width(&self) -> usize
        ensures { All (λ (row : answers.Row). length row.numbers ≡ result) self.now }
    {
        self.slice.columns.as_slice().len()
    }

    /// The number of a row in a column, and 0 past the columns.
    pub(crate) fn number(&self, place: usize, column: usize) -> i128
        requires { place < length self.now }
        ensures { (d : answers.Row) → result ≡ number_in column (get_or self.now place d) }
    {
        let (points, number) = self.points.at(place);
        number_at(self.slice.columns.as_slice(), points, number, column)
    }

    /// Writes the rows, where no row has begun. Want of memory alone makes it fail, and the writer is then as a new one.
    pub fn push_to(&self, writer: &mut RowWriter) -> Result<(), Memory>
        requires { writer.old.fields ≡ [] }
        ensures pushed { OnOk result (writer.new ≡ with_rows writer.old (map row_fields self.now)) }
        ensures dropped { OnErr result (writer.new ≡ nothing_written) }
    {
        push_rows(self.names, self.view, self.slice, &self.points, writer)
    }
}

impl LentRows for SliceRows<'_> {
    ghost rows = { λ rows. rows };

    fn count(&self) -> usize {
        self.points.len()
    }

    fn lend<'a>(&'a self, place: usize, row: &mut LentRow<'a>) -> Result<(), Memory> {
        let (points, number) = self.points.at(place);
        lend_row(self.names, self.view, self.slice, points, number, row)
    }
}

/// Writes the row of each point.
fn push_rows(
    names: &Dicts,
    view: &[u32],
    slice: &Slice,
    points: &OrderedPoints,
    writer: &mut RowWriter,
) -> Result<(), Memory>
    requires group { All (λ a. a < length names.now.kinds) slice.now.group }
    requires between { writer.old.fields ≡ [] }
    ensures pushed { OnOk result (writer.new
        ≡ with_rows writer.old (map row_fields (map (row_from slice.now.columns) (map (keyed names.now view.now slice.now.group) points.now)))) }
    ensures dropped { OnErr result (writer.new ≡ nothing_written) }
{
    for place in 0..points.len() {
        let (points, number) = points.at(place);
        push_row(names, view, slice, points, number, writer)?;
    }
    Ok(())
}

/// Appends the values and numbers of a point to the row, and ends it.
fn push_row(
    names: &Dicts,
    view: &[u32],
    slice: &Slice,
    points: &FlatPoints,
    number: usize,
    writer: &mut RowWriter,
) -> Result<(), Memory>
    requires { All (λ a. a < length names.now.kinds) slice.now.group }
    ensures pushed { OnOk result (writer.new
        ≡ with_end (with_fields writer.old (row_fields (row_from slice.now.columns (keyed names.now view.now slice.now.group (get_or points.now number nowhere)))))) }
    ensures dropped { OnErr result (writer.new ≡ nothing_written) }
{
    push_key(names, view, slice.group.as_slice(), points, number, writer)?;
    push_numbers(slice.columns.as_slice(), points, number, writer)?;
    writer.end_row()
}

/// Appends the values of the grouped attributes at a point to the row.
fn push_key(
    names: &Dicts,
    view: &[u32],
    group: &[u32],
    points: &FlatPoints,
    number: usize,
    writer: &mut RowWriter,
) -> Result<(), Memory>
    requires { All (λ a. a < length names.now.kinds) group.now }
    ensures pushed { OnOk result (writer.new ≡ with_fields writer.old (map value_text (key_of_entry names.now view.now group.now (get_or points.now number nowhere)))) }
    ensures dropped { OnErr result (writer.new ≡ nothing_written) }
{
    for attr in group {
        let code = coordinate(view, points, number, *attr);
        push_value(names, *attr, code, writer)?;
    }
    Ok(())
}

/// Appends the value that a coordinate of an attribute stands for to the row; the number 0 where there is none.
fn push_value(names: &Dicts, attr: u32, code: u64, writer: &mut RowWriter) -> Result<(), Memory>
    requires { attr < length names.now.kinds }
    ensures pushed { OnOk result (writer.new ≡ with_field writer.old (value_text (value_at_code names.now attr code))) }
    ensures dropped { OnErr result (writer.new ≡ nothing_written) }
{
    match names.value_of(attr, code) {
        Some(ValueRef::Word(text)) => writer.push_field(text),
        Some(ValueRef::Number(number)) => writer.push_natural(number),
        None => writer.push_natural(0),
    }
}

/// Appends the columns of a cell to the row.
fn push_numbers(
    columns: &[Column],
    points: &FlatPoints,
    number: usize,
    writer: &mut RowWriter,
) -> Result<(), Memory>
    ensures pushed { OnOk result (writer.new ≡ with_fields writer.old (map signed_decimal (map (column_of (get_or points.now number nowhere).cell) columns.now))) }
    ensures dropped { OnErr result (writer.new ≡ nothing_written) }
{
    for column in columns {
        writer.push_number(points.column(number, *column))?;
    }
    Ok(())
}

/// A column of a cell by its place among the columns, and 0 past them.
fn number_at(columns: &[Column], points: &FlatPoints, number: usize, place: usize) -> i128
    ensures { result ≡ get_or (map (column_of (get_or points.now number nowhere).cell) columns.now) place (pos 0) }
{
    match columns.get(place) {
        Some(column) => points.column(number, *column),
        None => 0,
    }
}
