//! The values of facts, in sequence.
ghost use Rattle.std.specs.Prelude.{◌≡◌, ◌≤◌, [], ◌∷◌, length, IfSome, None};
ghost use Rattle.fact_batch.specs.Values.{is_slot_within, shown, texts_len, values_of};

use std::marker::Model;

/// A stored value. For a text it is the length; the bytes are stored with the other texts.
#[derive(Clone, Copy, Debug, PartialEq, Eq)]
pub enum Slot {
    /// The length of a text, in bytes.
    Word(u8),
    /// A number.
    Number(u64),
}

impl Slot {
    /// Whether it is a text, or a number of at most `limit`.
    pub(crate) fn is_within(&self, limit: u64) -> bool
        ensures { result ≡ is_slot_within limit self.now }
    {
        match *self {
            Slot::Word(_) => true,
            Slot::Number(number) => number <= limit,
        }
    }
}

/// A borrowed value.
#[derive(Clone, Copy, Debug, PartialEq, Eq)]
pub enum LentValue<'a> {
    /// The bytes of a text.
    Word(&'a [u8]),
    /// A number.
    Number(u64),
}

/// The remaining values of facts, borrowed one after the other.
#[derive(Drop)]
pub struct Values<'a> {
    slots: &'a [Slot],
    texts: &'a [u8],
}

impl<'a> Model for Values<'a> {
    ghost use Rattle.std.specs.Prelude.{◌≡◌, List, length};
    ghost use Rattle.fact_model.specs.declared.fact.Value.{Value as FactValue};
    ghost use Rattle.fact_batch.specs.Values.{texts_len, values_of};

    ghost Value = { List FactValue };

    ghost view = { λ values. values_of values.slots.now values.texts.now };

    ghost invariant = { λ values. texts_len values.slots.now ≡ length values.texts.now };
}

impl<'a> Values<'a> {
    /// The values of these slots; `texts` holds their texts in sequence.
    pub(crate) fn new(slots: &'a [Slot], texts: &'a [u8]) -> Values<'a>
        requires { texts_len slots.now ≡ length texts.now }
        ensures { result ≡ values_of slots.now texts.now }
    {
        Values { slots, texts }
    }

    /// The next value, if there is one.
    pub fn next_value(&mut self) -> Option<LentValue<'a>>
        ensures next { IfSome result (λ value. self.old ≡ shown value ∷ self.new) }
        ensures end { result ≡ None → self.old ≡ [] }
    {
        let (slot, slots) = self.slots.split_first()?;
        self.slots = slots;
        match *slot {
            Slot::Word(len) => {
                let (text, texts) = self.texts.split_at(len as usize);
                self.texts = texts;
                Some(LentValue::Word(text))
            }
            Slot::Number(number) => Some(LentValue::Number(number)),
        }
    }
}
