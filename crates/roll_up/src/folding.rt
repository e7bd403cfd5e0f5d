//! Rows of a base slice, rolled up.
ghost use Rattle.std.specs.Prelude.{◌≡◌, ◌++◌, ◌∷◌, [], List, All, IfOk, OnOk, length, map};
ghost use Rattle.fact_model.specs.Adds.{AddUp};
ghost use Rattle.fact_model.specs.Rows as plain;
ghost use Rattle.fact_model.specs.declared.fact.Fact as facts;
ghost use Rattle.fact_model.specs.declared.slice.Row as answers;
ghost use Rattle.cube_schema.specs.Kinds.{arity};
ghost use Rattle.row_fold.specs.Lent.{row_in};
ghost use Rattle.row_fold.specs.Taking.{CanTake};
ghost use Rattle.slice_lang.specs.Agreeing.{SliceAgrees};
ghost use Rattle.roll_up.specs.Bases.{base};
ghost use Rattle.roll_up.specs.Levels.{Fit, extended, lift};
ghost use Rattle.roll_up.specs.Lifted.{HasForm, groups_of, rolled_up};

use crate::base::base_of;
use crate::level::LevelList;
use crate::lifting::Lifting;
use cube_schema::Schema;
use fact_model::{Memory, Rows, Slice};
use row_fold::{LentRow, LentRows, LentValue, RowFold};
use std::alloc::Global;

/// Rolls up the rows of the base slice: those whose keys meet the conditions on levels are grouped anew, and their numbers joined. If the
/// rows are those of facts, the result is the rows of the facts with their parents. Only new keys are copied. The only error is out of memory.
pub fn fold_up<R: LentRows>(
    alloc: Global,
    schema: &Schema,
    levels: &LevelList,
    slice: &Slice,
    rows: &R,
) -> Result<Rows, Memory>
    requires fit { Fit schema.now levels.now }
    requires agrees { SliceAgrees (extended schema.now levels.now) slice.now }
    requires form { All (HasForm (base (arity schema.now) levels.now slice.now)) (R.rows rows.now) }
    requires adds { AddUp (R.rows rows.now) }

    ensures exact { IfOk result (λ found. found ≡ rolled_up (arity schema.now) levels.now slice.now (R.rows rows.now)) }
    ensures lifted { (accepted : List facts.Fact) → All (λ (x : facts.Fact). length x.values ≡ arity schema.now) accepted
        → R.rows rows.now ≡ plain.rows accepted (base (arity schema.now) levels.now slice.now)
        → IfOk result (λ found. found ≡ plain.rows (map (lift levels.now) accepted) slice.now) }
{
    fold_rows(alloc, schema, levels, slice, rows)
}

/// The same, for any rows.
fn fold_rows<R: LentRows>(
    alloc: Global,
    schema: &Schema,
    levels: &LevelList,
    slice: &Slice,
    rows: &R,
) -> Result<Rows, Memory>
    requires fit { Fit schema.now levels.now }
    requires agrees { SliceAgrees (extended schema.now levels.now) slice.now }
    requires wide { All (λ (row : answers.Row). length row.numbers ≡ length slice.now.columns) (R.rows rows.now) }
    requires adds { AddUp (R.rows rows.now) }
    ensures { IfOk result (λ found. found ≡ rolled_up (arity schema.now) levels.now slice.now (R.rows rows.now)) }
{
    let base = base_of(alloc, schema, levels, slice)?;
    let lifting = Lifting {
        arity: schema.attrs.as_slice().len() as u32,
        levels: levels.as_slice(),
        slice,
        group: base.group.as_slice(),
    };
    let fold = fold_of(alloc, lifting, rows)?;
    fold.into_rows(alloc)
}

/// The groups of the rows that meet the conditions on levels.
fn fold_of<'a, R: LentRows>(
    alloc: Global,
    lifting: Lifting<'a>,
    rows: &'a R,
) -> Result<RowFold<'a>, Memory>
    requires group { lifting.group.now ≡ (base lifting.arity lifting.levels.now lifting.slice.now).group }
    requires wide { All (λ (row : answers.Row). length row.numbers ≡ length lifting.slice.now.columns) (R.rows rows.now) }
    requires adds { AddUp (R.rows rows.now) }
    ensures { IfOk result (λ fold. fold ≡ groups_of lifting.entry.arity lifting.entry.levels.now lifting.entry.slice.now (R.rows rows.now)) }
{
    let mut fold = RowFold::new(alloc);
    let mut row = LentRow::new(alloc);
    let mut room = Vec::new(alloc);
    for place in 0..rows.count() {
        rows.lend(place, &mut row)?;
        take_row(alloc, &lifting, &row, &mut room, &mut fold)?;
    }
    Ok(fold)
}

/// Takes in a row if it meets the conditions on levels.
fn take_row<'a>(
    alloc: Global,
    lifting: &Lifting<'a>,
    row: &LentRow<'a>,
    room: &mut Vec<LentValue<'a>>,
    fold: &mut RowFold<'a>,
) -> Result<(), Memory>
    requires group { lifting.now.group.now ≡ (base lifting.now.arity lifting.now.levels.now lifting.now.slice.now).group }
    requires room { CanTake lifting.now.slice.now.columns fold.old row.now.numbers.items }
    // If the groups were those of some rows, they are now those of the rows followed by this one.
    ensures { OnOk result ((rows : List answers.Row) → fold.old ≡ groups_of lifting.now.arity lifting.now.levels.now lifting.now.slice.now rows
        → fold.new ≡ groups_of lifting.now.arity lifting.now.levels.now lifting.now.slice.now (rows ++ row_in row.now ∷ [])) }
{
    let key = row.key.as_slice();
    if !lifting.keeps(key) {
        return Ok(());
    }
    lifting.roll(key, room)?;
    fold.take(
        alloc,
        lifting.slice.columns.as_slice(),
        room.as_slice(),
        row.numbers.as_slice(),
    )
}
