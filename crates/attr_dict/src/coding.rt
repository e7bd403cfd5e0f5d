//! Codes for the values of facts in one pass, and the entries of the names file for new names.
ghost use Rattle.std.specs.Prelude.{◌≡◌, ◌<◌, ◌≤◌, ◌==◌, ◌+◌, ◌-◌, ◌^◌, ℕ, List, [], ◌∷◌, ◌++◌, OnOk, IfOk, All, length, get_or, map, if◌then◌else◌};
ghost use Rattle.std.specs.List.{list_any};
ghost use Rattle.std.specs.Str.{bytes_eq};
ghost use Rattle.fact_model.specs.declared.Fact.{Fact};
ghost use Rattle.fact_model.specs.declared.fact.Value.TheVariants.{Word};
ghost use Rattle.fact_batch.specs.Values.{shown};
ghost use Rattle.spec_points.specs.Codes.{Text, admitted, texts_at, same_entry, named};
ghost use Rattle.spec_points.specs.Points.{coord};
ghost use Rattle.attr_dict.specs.Admitting.{Grew, codes_of, entries_text, entry_text, fresh};
ghost use Rattle.attr_dict.specs.Coding.{AreNamesOf, entry_in};
ghost use Rattle.attr_dict.specs.Sizes.{IsSmall};

use crate::names::Names;
use fact_batch::{Batch, FlatRows, LentValue};
use fact_model::{Memory, Text};
use std::alloc::Global;

/// What admitting facts gives.
#[derive(Drop)]
pub struct Admitted {
    /// The coordinates of each fact, one for each attribute.
    pub coded: FlatRows<u64>,
    /// The entries of the names file for the new names.
    pub names: Text,
}

/// Writes the entry of a name.
fn push_entry(entries: &mut Vec<u8>, attr: usize, bytes: &[u8]) -> Result<(), Memory>
    requires attr { attr < 256 }
    requires short { length bytes.now ≤ 255 }
    ensures { OnOk result (entries.new.items ≡ entries.old.items ++ entry_text (attr, bytes.now)) }
{
    entries.push(attr as u8)?;
    entries.push(bytes.len() as u8)?;
    Ok(entries.extend_from_slice(bytes)?)
}

/// The code of a text, which is admitted, and whose entry is written where it is new.
fn code_text(
    names: &mut Names,
    attr: usize,
    bytes: &[u8],
    entries: &mut Vec<u8>,
) -> Result<u64, Memory>
    requires attr { attr < 256 }
    requires short { length bytes.now ≤ 255 }
    ensures names { OnOk result (names.new ≡ admitted bytes_eq names.old (bytes.now ∷ [])) }
    ensures code { (later : List Text) → Grew names.new later → IfOk result (λ code. code ≡ coord later (Word bytes.now)) }
    ensures entries { OnOk result (entries.new.items ≡ entries.old.items ++ (if list_any (bytes_eq bytes.now) names.old then [] else entry_text (attr, bytes.now))) }
    ensures grew { Grew names.old names.new }
{
    let (code, fresh) = names.admit(bytes)?;
    if fresh {
        push_entry(entries, attr, bytes)?;
    }
    Ok(code)
}

/// The code of a value. A text is admitted, and its entry written where it is new.
fn code_value(
    names: &mut Vec<Names>,
    attr: usize,
    value: LentValue<'_>,
    entries: &mut Vec<u8>,
) -> Result<u64, Memory>
    requires attr { attr < 256 }
    requires there { attr < length names.old.items }
    requires small { IsSmall (shown value) }
    ensures same { length names.new.items ≡ length names.old.items }
    ensures names { (seen : List (ℕ × Text)) → AreNamesOf seen names.old.items → OnOk result (AreNamesOf (admitted same_entry seen (entry_in attr (shown value.entry))) names.new.items) }
    ensures code { (later : List (List Text)) → ((a : ℕ) → Grew (get_or names.new.items a []) (get_or later a [])) → IfOk result (λ code. code ≡ coord (get_or later attr []) (shown value.entry)) }
    ensures entries { (seen : List (ℕ × Text)) → AreNamesOf seen names.old.items → OnOk result (entries.new.items ≡ entries.old.items ++ entries_text (fresh same_entry seen (entry_in attr (shown value.entry)))) }
    ensures grew { (a : ℕ) → Grew (get_or names.old.items a []) (get_or names.new.items a []) }
{
    match value {
        LentValue::Number(number) => Ok(number + 1),
        LentValue::Word(bytes) => code_text(&mut names[attr], attr, bytes, entries),
    }
}

/// The attribute behind this one, or the first behind the last.
fn behind(attr: usize, width: usize) -> usize
    requires { attr < width }
    ensures { result ≡ (if attr + 1 == width then 0 else attr + 1) }
{
    if attr + 1 == width { 0 } else { attr + 1 }
}

/// Admits the texts of the facts, and gives the coordinates of all facts and the entries of the new names. After `Memory` new names
/// may stand behind the old.
pub(crate) fn code_batch(
    alloc: Global,
    names: &mut Vec<Names>,
    facts: &Batch,
) -> Result<Admitted, Memory>
    requires few { length names.old.items ≤ 16 }
    requires values { All (λ (x : Fact). length x.values ≡ length names.old.items) facts.now }
    requires small { All (λ (x : Fact). All IsSmall x.values) facts.now }
    ensures same { length names.new.items ≡ length names.old.items }
    ensures names { OnOk result ((a : ℕ) → get_or names.new.items a [] ≡ admitted bytes_eq (get_or names.old.items a []) (texts_at a facts.now)) }
    ensures coded { IfOk result (λ admitted. admitted.coded ≡ map (codes_of names.new.items) facts.now) }
    ensures entries { (seen : List (ℕ × Text)) → AreNamesOf seen names.old.items → IfOk result (λ admitted. admitted.names ≡ entries_text (fresh same_entry seen (named facts.now))) }
    ensures grew { (a : ℕ) → Grew (get_or names.old.items a []) (get_or names.new.items a []) }
{
    let width = names.len();
    let rows = facts.len();
    // The batch holds as many values, so the product is met.
    let mut codes = Vec::with_capacity(alloc, rows.saturating_mul(width))?;
    let mut entries = Vec::new(alloc);
    let mut attr = 0;
    let mut values = facts.values();
    while let Some(value) = values.next_value() {
        codes.push(code_value(names, attr, value, &mut entries)?)?;
        attr = behind(attr, width);
    }
    Ok(Admitted {
        coded: FlatRows::from_vec(width, rows, codes),
        names: Text::from_vec(entries),
    })
}
