//! Borrowed values.
ghost use Rattle.std.specs.Prelude.{◌≡◌, IfOk, map};
ghost use Rattle.row_fold.specs.Lent.{value_of};

use fact_model::{ListOf, Memory, Text, Value, ValueList};
use std::alloc::Global;

/// A value whose text is borrowed. Such values have the order of values.
#[derive(Clone, Copy, Debug, PartialEq, Eq, PartialOrd, Ord)]
pub enum LentValue<'a> {
    /// The value of a text attribute.
    Word(&'a [u8]),
    /// The value of a number attribute.
    Number(u64),
}

impl<'a> LentValue<'a> {
    /// The value, borrowed.
    pub fn of(value: &'a Value) -> LentValue<'a>
        ensures { value_of result ≡ value.now }
    {
        match value {
            Value::Word(text) => LentValue::Word(text.as_bytes()),
            Value::Number(number) => LentValue::Number(*number),
        }
    }

    /// An owned copy of the value.
    pub fn to_value(self, alloc: Global) -> Result<Value, Memory>
        ensures { IfOk result (λ value. value ≡ value_of self.entry) }
    {
        match self {
            LentValue::Word(bytes) => {
                let text = Text::from_bytes(alloc, bytes)?;
                Ok(Value::Word(text))
            }
            LentValue::Number(number) => Ok(Value::Number(number)),
        }
    }
}

/// Owned copies of the values.
pub(crate) fn to_values(alloc: Global, key: &[LentValue<'_>]) -> Result<ValueList, Memory>
    ensures { IfOk result (λ values. values ≡ map value_of key.now) }
{
    let mut values = Vec::with_capacity(alloc, key.len())?;
    for value in key {
        values.push(value.to_value(alloc)?)?;
    }
    Ok(ListOf::from_vec(values))
}
