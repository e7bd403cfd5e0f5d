//! A value and its parent as the index of parents holds them, and the key for looking up a value.
ghost use Rattle.std.specs.Prelude.{◌≡◌, IfOk};
ghost use Rattle.std.specs.Cmp.{on_equiv, partial_equiv_from_equiv};
ghost use Rattle.fact_model.specs.Value.{same_value};
ghost use Rattle.row_fold.specs.Lent.{value_of};
ghost use Rattle.roll_up.specs.Children.{fed, fed-alike, same-equiv};

use fact_model::Memory;
use indexmap::Equivalent;
use row_fold::LentValue;
use smallvec::SmallVec;
use std::alloc::Global;
use std::hash::{Hash, Hasher};
use std::marker::Model;

/// The most bytes of a text that is stored in the index itself.
const SHORT: usize = 22;

/// A text, stored in the index itself if it is short.
#[derive(Drop)]
pub(crate) struct EntryText {
    bytes: SmallVec<u8, SHORT>,
}

impl Model for EntryText {
    ghost use Rattle.std.specs.Prelude.{ℕ, List};

    ghost Value = { List ℕ };

    ghost view = { λ text. text.bytes.items };
}

impl EntryText {
    /// No bytes. Does not allocate.
    fn empty(alloc: Global) -> EntryText {
        EntryText {
            bytes: SmallVec::new(alloc),
        }
    }

    /// The text of these bytes.
    pub(crate) fn of(alloc: Global, bytes: &[u8]) -> Result<EntryText, Memory>
        ensures { IfOk result (λ text. text ≡ bytes.now) }
    {
        let bytes = SmallVec::from_slice(alloc, bytes)?;
        Ok(EntryText { bytes })
    }

    /// Its bytes.
    pub(crate) fn as_bytes(&self) -> &[u8]
        ensures { result.now ≡ self.now }
    {
        self.bytes.as_slice()
    }
}

/// A value that has a parent: the number, or else the text.
#[derive(Drop)]
pub(crate) struct Child {
    number: Option<u64>,
    text: EntryText,
}

impl Model for Child {
    ghost use Rattle.fact_model.specs.declared.fact.Value as values;
    ghost use Rattle.roll_up.specs.Children.{child_of};

    ghost Value = { values.Value };

    ghost view = { λ child. child_of child.number child.text };
}

impl Child {
    /// A copy of the value.
    pub(crate) fn of(alloc: Global, value: LentValue<'_>) -> Result<Child, Memory>
        ensures { IfOk result (λ child. child ≡ value_of value.entry) }
    {
        match value {
            LentValue::Word(bytes) => {
                let text = EntryText::of(alloc, bytes)?;
                Ok(Child { number: None, text })
            }
            LentValue::Number(number) => Ok(Child {
                number: Some(number),
                text: EntryText::empty(alloc),
            }),
        }
    }

    /// The value, borrowed.
    fn lent(&self) -> ChildRef<'_>
        ensures { value_of result.value ≡ self.now }
    {
        let value = match self.number {
            Some(number) => LentValue::Number(number),
            None => LentValue::Word(self.text.as_bytes()),
        };
        ChildRef { value }
    }
}

impl PartialEq for Child {
    ghost eq = { same_value };

    ghost laws = { partial_equiv_from_equiv same-equiv };

    fn eq(&self, other: &Child) -> bool {
        is_same(self.lent().value, other.lent().value)
    }
}

impl Eq for Child {
    ghost laws = { same-equiv };
}

impl Hash for Child {
    ghost hash_input = { fed };

    ghost respects_eq = { fed-alike };

    fn hash<H: Hasher>(&self, state: &mut H) {
        self.lent().hash(state);
    }
}

/// A value whose parent is looked up. Does not allocate.
#[derive(Clone, Copy)]
pub(crate) struct ChildRef<'a> {
    pub(crate) value: LentValue<'a>,
}

impl PartialEq for ChildRef<'_> {
    ghost eq = { λ x y. same_value (value_of x.value) (value_of y.value) };

    ghost laws = { partial_equiv_from_equiv (on_equiv (λ child. value_of child.value) same-equiv) };

    fn eq(&self, other: &Self) -> bool {
        is_same(self.value, other.value)
    }
}

impl Eq for ChildRef<'_> {
    ghost laws = { on_equiv (λ child. value_of child.value) same-equiv };
}

// All bytes in one write, so that a hasher takes them word by word.
impl Hash for ChildRef<'_> {
    ghost hash_input = { λ child. fed (value_of child.value) };

    ghost respects_eq = { λ x y. fed-alike (value_of x.value) (value_of y.value) };

    fn hash<H: Hasher>(&self, state: &mut H) {
        match self.value {
            LentValue::Word(bytes) => state.write(bytes),
            LentValue::Number(number) => state.write_u64(number),
        }
    }
}

impl Equivalent<Child> for ChildRef<'_> {
    ghost equivalent = { λ child key. same_value (value_of child.value) key };

    ghost respects_hash = { λ child. fed-alike (value_of child.value) };

    ghost respects_eq = { λ child. same-equiv.congr (value_of child.value) };

    fn equivalent(&self, key: &Child) -> bool {
        is_same(self.value, key.lent().value)
    }
}

/// Whether the values are equal.
fn is_same(left: LentValue<'_>, right: LentValue<'_>) -> bool
    ensures { result ≡ same_value (value_of left.entry) (value_of right.entry) }
{
    match left {
        LentValue::Word(text) => match right {
            LentValue::Word(other) => text == other,
            LentValue::Number(_) => false,
        },
        LentValue::Number(number) => match right {
            LentValue::Word(_) => false,
            LentValue::Number(other) => number == other,
        },
    }
}
