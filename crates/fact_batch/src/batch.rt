//! The facts of a batch.
ghost use Rattle.std.specs.Prelude.{◌≡◌, ◌<◌, ◌==◌, [], length, get_or};
ghost use Rattle.std.specs.List.{list_all};
ghost use Rattle.fact_batch.specs.Batch.{are_within, measures_in, values_in};
ghost use Rattle.fact_batch.specs.Values.{is_slot_within};

use crate::rows::{FlatRows, row_of};
use crate::values::{Slot, Values};
use std::marker::Model;

/// The facts of a batch. Contracts see it as the list of facts. All facts have the same number of values and the same number of measures.
/// They are stored contiguously: 16 bytes for each value plus the bytes of the texts, and 16 bytes for each measure.
#[derive(Drop)]
pub struct Batch {
    pub(crate) width: usize,
    pub(crate) measures: usize,
    pub(crate) rows: usize,
    pub(crate) slots: Vec<Slot>,
    pub(crate) texts: Vec<u8>,
    pub(crate) numbers: Vec<i128>,
}

impl Model for Batch {
    ghost use Rattle.std.specs.Prelude.{List};
    ghost use Rattle.fact_model.specs.declared.fact.Fact.{Fact};
    ghost use Rattle.fact_batch.specs.Batch.{IsFlat, facts_of};

    ghost Value = { List Fact };

    ghost view = { λ b. facts_of b.width b.measures b.rows b.slots.items b.texts.items b.numbers.items };

    ghost invariant = { λ b. IsFlat b.width b.measures b.rows b.slots.items b.texts.items b.numbers.items };
}

impl Batch {
    /// The number of facts.
    pub fn len(&self) -> usize
        ensures { result ≡ length self.now }
    {
        self.rows
    }

    /// Whether there are no facts.
    pub fn is_empty(&self) -> bool
        ensures { result ≡ (length self.now == 0) }
    {
        self.len() == 0
    }

    /// The values of all facts, in order of fact and then of attribute. Does not allocate.
    pub fn values(&self) -> Values<'_>
        ensures { result ≡ values_in self.now }
    {
        Values::new(self.slots.as_slice(), self.texts.as_slice())
    }

    /// Whether all numbers among the values are at most `limit`. Does not allocate.
    pub fn all_within(&self, limit: u64) -> bool
        ensures { result ≡ are_within limit self.now }
    {
        slots_within(&self.slots, limit)
    }

    /// The numbers of fact `at`, one for each measure. Facts are counted from 0.
    pub fn numbers(&self, at: usize) -> &[i128]
        requires { at < length self.now }
        ensures { result.now ≡ get_or (measures_in self.now) at [] }
    {
        row_of(&self.numbers, self.measures, self.rows, at)
    }

    /// The numbers of all facts. The memory of the values is freed. Does not allocate.
    pub fn into_numbers(self) -> FlatRows<i128>
        ensures { result ≡ measures_in self }
    {
        let Batch {
            measures,
            rows,
            numbers,
            ..
        } = self;
        FlatRows::from_vec(measures, rows, numbers)
    }
}

/// Whether all numbers among the values in these slots are at most `limit`.
fn slots_within(slots: &[Slot], limit: u64) -> bool
    ensures { result ≡ list_all (is_slot_within limit) slots.now }
{
    slots.iter().all(|slot| slot.is_within(limit))
}
