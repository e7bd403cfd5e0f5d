//! Rows taken in one after another, in any order; rows of one key are joined.
ghost use Rattle.std.specs.Prelude.{◌≡◌, ◌++◌, [], ◌∷◌, List, IfOk, OnErr, OnOk, map};
ghost use Rattle.fact_model.specs.Rows.{as_row};
ghost use Rattle.fact_model.specs.declared.slice.Row as answers;
ghost use Rattle.row_fold.specs.Lent.{group_of, value_of};
ghost use Rattle.row_fold.specs.Taking.{CanTake, by_key, put_in, row_of};

use crate::joining::join_numbers;
use crate::lent::{LentValue, to_values};
use fact_model::{Column, ListOf, Memory, Row, Rows};
use std::alloc::Global;
use std::collections::BTreeMap;
use std::marker::Model;

/// Groups of rows. Contracts see the list of their keys and numbers, ascending by key.
#[derive(Drop)]
pub struct RowFold<'a> {
    groups: Groups<'a>,
}

/// Numbers by keys.
type Groups<'a> = BTreeMap<Vec<LentValue<'a>>, Vec<i128>>;

impl<'a> Model for RowFold<'a> {
    ghost use Rattle.std.specs.Prelude.{ℤ, List, map};
    ghost use Rattle.fact_model.specs.Value.{Key};
    ghost use Rattle.row_fold.specs.Lent.{group_of};

    ghost Value = { List (Key × List ℤ) };

    ghost view = { λ fold. map group_of fold.groups.entries };
}

impl<'a> RowFold<'a> {
    /// No groups. Does not allocate.
    pub fn new(alloc: Global) -> RowFold<'a>
        ensures { result ≡ [] }
    {
        RowFold {
            groups: BTreeMap::new(alloc),
        }
    }

    /// Takes in a row: its numbers are joined to those of the group of its key, or it becomes a new group. After `Memory` all is as
    /// before.
    pub fn take(
        &mut self,
        alloc: Global,
        columns: &[Column],
        key: &[LentValue<'a>],
        numbers: &[i128],
    ) -> Result<(), Memory>
        requires { CanTake columns.now self.old numbers.now }
        // If the groups were those of some rows, they are now those of the rows followed by this one.
        ensures taken { OnOk result ((rows : List answers.Row) → self.old ≡ by_key columns.now rows → self.new ≡ by_key columns.now (rows ++ row_of key.now numbers.now ∷ [])) }
        ensures unchanged { OnErr result (self.new ≡ self.old) }
    {
        take_in(alloc, columns, key, numbers, &mut self.groups)
    }

    /// The groups as rows, ascending by key.
    pub fn into_rows(self, alloc: Global) -> Result<Rows, Memory>
        ensures { IfOk result (λ rows. rows ≡ map as_row self.entry) }
    {
        let RowFold { groups } = self;
        rows_of(alloc, groups)
    }
}

/// Joins the numbers to those of the group of the key, or makes a group of them.
fn take_in<'a>(
    alloc: Global,
    columns: &[Column],
    key: &[LentValue<'a>],
    numbers: &[i128],
    groups: &mut Groups<'a>,
) -> Result<(), Memory>
    requires { CanTake columns.now (map group_of groups.old.entries) numbers.now }
    ensures taken { OnOk result (map group_of groups.new.entries ≡ put_in columns.now (map value_of key.now) numbers.now (map group_of groups.old.entries)) }
    ensures unchanged { OnErr result (groups.new.entries ≡ groups.old.entries) }
{
    if let Some(sums) = groups.get_mut(key) {
        join_numbers(columns, numbers, sums);
        return Ok(());
    }
    let key = Vec::from_slice(alloc, key)?;
    let numbers = Vec::from_slice(alloc, numbers)?;
    groups.insert(key, numbers)?;
    Ok(())
}

/// The groups as rows, in the order of their keys.
fn rows_of(alloc: Global, groups: Groups<'_>) -> Result<Rows, Memory>
    ensures { IfOk result (λ rows. rows ≡ map as_row (map group_of groups.entry.entries)) }
{
    let mut rows = ListOf::new(alloc);
    for (key, numbers) in groups {
        rows.push(Row {
            key: to_values(alloc, &key)?,
            numbers: ListOf::from_vec(numbers),
        })?;
    }
    Ok(rows)
}
