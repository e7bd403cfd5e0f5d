//! The keys of base rows, rolled up.
ghost use Rattle.std.specs.Prelude.{◌≡◌, OnOk, map};
ghost use Rattle.row_fold.specs.Lent.{value_of};
ghost use Rattle.roll_up.specs.Bases.{base};
ghost use Rattle.roll_up.specs.Lifted.{is_kept, is_met, rolled, value_for, value_in};
ghost use Rattle.roll_up.specs.Parents.{parent_of};

use crate::level::Level;
use fact_model::{Cond, Memory, Slice};
use row_fold::LentValue;

/// What a roll-up asks of the base rows.
#[derive(Clone, Copy)]
pub(crate) struct Lifting<'a> {
    /// The number of attributes. Numbers from there on are levels.
    pub(crate) arity: u32,
    /// The levels.
    pub(crate) levels: &'a [Level],
    /// The slice by the extended schema.
    pub(crate) slice: &'a Slice,
    /// The attributes that the base slice groups by.
    pub(crate) group: &'a [u32],
}

impl<'a> Lifting<'a> {
    /// Puts the rolled-up key of a base row into `room`, which is reused for each row.
    pub(crate) fn roll(
        &self,
        key: &[LentValue<'a>],
        room: &mut Vec<LentValue<'a>>,
    ) -> Result<(), Memory>
        requires { self.now.group.now ≡ (base self.now.arity self.now.levels.now self.now.slice.now).group }
        ensures { OnOk result (map value_of room.new.items ≡ rolled self.now.arity self.now.levels.now self.now.slice.now (map value_of key.now)) }
    {
        room.clear();
        for attr in self.slice.group.as_slice() {
            room.push(self.value(key, *attr))?;
        }
        Ok(())
    }

    /// Whether the key of a base row meets the conditions on levels.
    pub(crate) fn keeps(&self, key: &[LentValue<'a>]) -> bool
        requires { self.now.group.now ≡ (base self.now.arity self.now.levels.now self.now.slice.now).group }
        ensures { result ≡ is_kept self.now.arity self.now.levels.now self.now.slice.now (map value_of key.now) }
    {
        for cond in self.slice.conds.as_slice() {
            if cond.attr() >= self.arity && !is_met(cond, self.value(key, cond.attr())) {
                return false;
            }
        }
        true
    }

    /// A base row's value of an attribute of the extended schema; the number 0 if there is no such attribute.
    fn value(&self, key: &[LentValue<'a>], attr: u32) -> LentValue<'a>
        requires { self.now.group.now ≡ (base self.now.arity self.now.levels.now self.now.slice.now).group }
        ensures { value_of result ≡ value_in self.now.arity self.now.levels.now self.now.slice.now (map value_of key.now) attr }
    {
        if attr < self.arity {
            return value_for(self.group, key, attr);
        }
        match self.levels.get((attr - self.arity) as usize) {
            Some(level) => LentValue::Word(parent_for(self.group, key, level)),
            None => LentValue::Number(0),
        }
    }
}

/// A key's value of an attribute, if it is grouped; otherwise the number 0.
fn value_for<'a>(group: &[u32], key: &[LentValue<'a>], attr: u32) -> LentValue<'a>
    ensures { value_of result ≡ value_for group.now (map value_of key.now) attr }
{
    for i in 0..group.len().min(key.len()) {
        if group[i] == attr {
            return key[i];
        }
    }
    LentValue::Number(0)
}

/// The parent that a level gives to a key's value of the level's attribute.
fn parent_for<'a>(group: &[u32], key: &[LentValue<'_>], level: &'a Level) -> &'a [u8]
    ensures { result.now ≡ parent_of level.now.parents (value_for group.now (map value_of key.now) level.now.attr) }
{
    level.parents.parent_of(value_for(group, key, level.attr))
}

/// Whether the value meets the condition.
fn is_met(cond: &Cond, value: LentValue<'_>) -> bool
    ensures { result ≡ is_met cond.now (value_of value.entry) }
{
    match cond {
        Cond::Equal { value: wanted, .. } => LentValue::of(wanted).cmp(&value).is_eq(),
        Cond::Between { low, high, .. } => match value {
            LentValue::Number(number) => *low <= number && number <= *high,
            LentValue::Word(_) => false,
        },
    }
}
