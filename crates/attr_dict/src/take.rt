//! Taking in facts: their new names, their coordinates, and the entries of the new names.
ghost use Rattle.std.specs.Prelude.{◌≡◌, ◌<◌, ◌≤◌, ℕ, List, [], OnOk, IfOk, IfErr, All, None, length, get_or, map};
ghost use Rattle.fact_model.specs.declared.Fact.{Fact};
ghost use Rattle.cube_schema.specs.Kinds.{max_of};
ghost use Rattle.spec_points.specs.Agree.{name_limit};
ghost use Rattle.spec_points.specs.Codes.{Text, same_entry, named};
ghost use Rattle.attr_dict.specs.Sizes.{IsSmall};
ghost use Rattle.attr_dict.specs.Admitting.{Grew, names_with, first_full, codes_of, entries_text, fresh};
ghost use Rattle.attr_dict.specs.Coding.{AreNamesOf};
ghost use Rattle.attr_dict.specs.Full.{IsFull};

use crate::admit::{DictRefusal, first_full};
use crate::coding::{Admitted, code_batch};
use crate::names::Names;
use cube_schema::Kind;
use fact_batch::Batch;
use std::alloc::Global;

/// Takes in the facts. After a refusal the old names stand in front, and new ones may stand behind them.
pub(crate) fn take_in(
    alloc: Global,
    kinds: &[Kind],
    names: &mut Vec<Names>,
    facts: &Batch,
) -> Result<Admitted, DictRefusal>
    requires same { length names.old.items ≡ length kinds.now }
    requires few { length kinds.now ≤ 16 }
    requires ranges { (a : ℕ) → max_of (get_or kinds.now a Kind.Number) ≤ name_limit }
    requires values { All (λ (x : Fact). length x.values ≡ length kinds.now) facts.now }
    requires small { All (λ (x : Fact). All IsSmall x.values) facts.now }
    ensures same { length names.new.items ≡ length names.old.items }
    ensures names { OnOk result ((a : ℕ) → get_or names.new.items a [] ≡ names_with (record { kinds = kinds.now; names = names.old.items }) facts.now a) }
    ensures within { OnOk result ((a : ℕ) → a < length kinds.now → length (get_or names.new.items a []) ≤ max_of (get_or kinds.now a Kind.Number)) }
    ensures coded { IfOk result (λ admitted. admitted.coded ≡ map (codes_of names.new.items) facts.now) }
    ensures entries { (seen : List (ℕ × Text)) → AreNamesOf seen names.old.items → IfOk result (λ admitted. admitted.names ≡ entries_text (fresh same_entry seen (named facts.now))) }
    ensures none { OnOk result (first_full (record { kinds = kinds.now; names = names.old.items }) facts.now ≡ None) }
    ensures full { IfErr result (IsFull (record { kinds = kinds.now; names = names.old.items }) facts.now) }
    ensures grew { (a : ℕ) → Grew (get_or names.old.items a []) (get_or names.new.items a []) }
{
    let admitted = code_batch(alloc, names, facts)?;
    match first_full(kinds, names.as_slice()) {
        Some(attr) => Err(DictRefusal::Full(attr)),
        None => Ok(admitted),
    }
}
