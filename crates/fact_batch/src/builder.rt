//! Builds a batch, value by value.
ghost use Rattle.std.specs.Prelude.{◌≡◌, ◌≤◌, ◌<◌, ◌^◌, [], ◌∷◌, ◌++◌, length, OnOk};
ghost use Rattle.fact_model.specs.declared.fact.Value.TheVariants.{Word, Number};
ghost use Rattle.fact_batch.specs.Batch.{Draft, IsBetween};

use crate::batch::Batch;
use crate::values::Slot;
use fact_model::Memory;
use std::alloc::Global;
use std::marker::Model;

/// Complete facts, and the values and numbers of the next.
#[derive(Drop)]
pub struct BatchBuilder {
    width: usize,
    measures: usize,
    rows: usize,
    slots: Vec<Slot>,
    texts: Vec<u8>,
    numbers: Vec<i128>,
}

impl Model for BatchBuilder {
    ghost use Rattle.fact_batch.specs.Batch.{Draft, IsDraft, draft_of};

    ghost Value = { Draft };

    ghost view = { λ b. draft_of b.width b.measures b.rows b.slots.items b.texts.items b.numbers.items };

    ghost invariant = { λ b. IsDraft b.width b.measures b.rows b.slots.items b.texts.items b.numbers.items };
}

impl BatchBuilder {
    /// A builder without facts, each of which will have `width` values and `measures` numbers. Does not allocate.
    pub fn new(alloc: Global, width: usize, measures: usize) -> BatchBuilder
        ensures between { IsBetween width measures result }
        ensures none { result.facts ≡ [] }
    {
        BatchBuilder {
            width,
            measures,
            rows: 0,
            slots: Vec::new(alloc),
            texts: Vec::new(alloc),
            numbers: Vec::new(alloc),
        }
    }

    /// Adds a text as the next value of the current fact. After `Memory` the content of that fact is unspecified.
    pub fn push_text(&mut self, bytes: &[u8]) -> Result<(), Memory>
        requires short { length bytes.now ≤ 255 }
        ensures { OnOk result (self.new ≡ record self.old { values = self.old.values ++ Word bytes.now ∷ [] }) }
    {
        let before = self.texts.len();
        self.texts.extend_from_slice(bytes)?;
        match self.slots.push(Slot::Word(bytes.len() as u8)) {
            Ok(()) => Ok(()),
            Err(_) => {
                self.texts.truncate(before);
                Err(Memory)
            }
        }
    }

    /// Adds a number as the next value of the current fact. After `Memory` the content of that fact is unspecified.
    pub fn push_value(&mut self, number: u64) -> Result<(), Memory>
        ensures { OnOk result (self.new ≡ record self.old { values = self.old.values ++ Number number ∷ [] }) }
    {
        Ok(self.slots.push(Slot::Number(number))?)
    }

    /// Adds the number of the next measure of the current fact. After `Memory` the content of that fact is unspecified.
    pub fn push_number(&mut self, number: i128) -> Result<(), Memory>
        ensures { OnOk result (self.new ≡ record self.old { numbers = self.old.numbers ++ number ∷ [] }) }
    {
        Ok(self.numbers.push(number)?)
    }

    /// Ends the current fact, which is complete.
    pub fn end_fact(&mut self)
        requires few { length self.old.facts < 2 ^ 63 }
        requires values { length self.old.values ≡ self.old.width }
        requires numbers { length self.old.numbers ≡ self.old.measures }
        ensures { self.new ≡ record self.old { facts = self.old.facts ++ (record { values = self.old.values; measures = self.old.numbers }) ∷ []; values = []; numbers = [] } }
    {
        self.rows += 1;
    }

    /// The batch of all facts. Does not allocate.
    pub fn finish(self) -> Batch
        requires values { self.values ≡ [] }
        requires numbers { self.numbers ≡ [] }
        ensures { result ≡ self.facts }
    {
        let BatchBuilder {
            width,
            measures,
            rows,
            slots,
            texts,
            numbers,
        } = self;
        Batch {
            width,
            measures,
            rows,
            slots,
            texts,
            numbers,
        }
    }
}
