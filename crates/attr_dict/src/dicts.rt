//! The names of all attributes.
ghost use Rattle.std.specs.Prelude.{◌≡◌, ◌<◌, ◌≤◌, ◌+◌, ℕ, List, [], IfOk, IfErr, IfSome, OnOk, OnErr, All, None, true, length, option_map, map, slice_index, take};
ghost use Rattle.cube_schema.specs.declared.Attr.{Attr};
ghost use Rattle.cube_schema.specs.Lawful.{IsSchema};
ghost use Rattle.std.specs.List.{zip};
ghost use Rattle.spec_points.specs.Deltas.{CodedBy};
ghost use Rattle.spec_points.specs.Points.{View};
ghost use Rattle.fact_model.specs.Limits.{IsWithin, number_limit};
ghost use Rattle.spec_points.specs.Agree.{IsCoded};
ghost use Rattle.spec_points.specs.Codes.{Text, same_entry, named};
ghost use Rattle.attr_dict.specs.Admitting.{Agrees, HasSmallCodes, names_with, first_full, codes_of, entries_text, fresh, Lists};
ghost use Rattle.attr_dict.specs.Full.{IsFull};
ghost use Rattle.attr_dict.specs.Entering.{HasRead, all_enter, after_entries};
ghost use Rattle.attr_dict.specs.Stops.{HasCause};
ghost use Rattle.attr_dict.specs.Room.{entries_len, entries_limit};
ghost use Rattle.attr_dict.specs.Shown.{shown};
ghost use Rattle.attr_dict.specs.Book.{no_names, none_yet, names_at, kind_at, code_at, code_for, shown_names, value_of};

use crate::admit::DictRefusal;
use crate::coding::Admitted;
use crate::lengths::{Lengths, cut, lengths_of};
use crate::names::Names;
use crate::read::{NamesStop, read_entries};
use crate::take::take_in;
use cube_schema::{Attr, Kind, Schema};
use fact_batch::Batch;
use fact_model::{GREATEST_NUMBER, Memory, Value};
use std::alloc::Global;
use std::marker::Model;
use text_hash::Seed;

/// A value that is lent.
#[derive(Clone, Copy, Debug, PartialEq, Eq)]
pub enum ValueRef<'a> {
    /// The value of a text attribute.
    Word(&'a [u8]),
    /// The value of a number attribute.
    Number(u64),
}

/// The names of a schema's attributes. The coordinate of a number is the number plus 1, and that of a text is its code, which counts
/// from 1 in order of first appearance.
#[derive(Drop)]
pub struct Dicts {
    alloc: Global,
    seed: Seed,
    kinds: Vec<Kind>,
    names: Vec<Names>,
}

impl Model for Dicts {
    ghost use Rattle.attr_dict.specs.Book.{Book, IsBook};

    ghost Value = { Book };

    ghost view = { λ dicts. record { kinds = dicts.kinds.items; names = dicts.names.items } };

    ghost invariant = { λ dicts. IsBook (record { kinds = dicts.kinds.items; names = dicts.names.items }) };
}

impl Dicts {
    /// No names, for the attributes of this schema, whose hash has this seed.
    pub fn new(alloc: Global, seed: Seed, schema: &Schema) -> Result<Dicts, Memory>
        requires { IsSchema schema.now }
        ensures { IfOk result (λ dicts. dicts ≡ no_names schema.now) }
    {
        let kinds = kinds_of(alloc, schema.attrs.as_slice())?;
        let names = no_names(alloc, seed, schema.attrs.as_slice())?;
        Ok(Dicts {
            alloc,
            seed,
            kinds,
            names,
        })
    }

    /// The seed of their hash.
    pub fn seed(&self) -> Seed {
        self.seed
    }

    /// The coordinate of a value. It is none exactly where a text has no code or the value is not of the attribute's kind.
    pub fn code_of(&self, attr: u32, value: &Value) -> Option<u64>
        requires declared { attr < length self.now.kinds }
        requires within { IsWithin number_limit value.now }
        ensures code { result ≡ code_at self.now attr value.now }
        ensures back { IfSome result (λ code. value_of self.now attr code ≡ Some value.now) }
    {
        match (self.kinds[attr as usize], value) {
            (Kind::Word { .. }, Value::Word(text)) => {
                self.names[attr as usize].code_of(text.as_bytes())
            }
            (Kind::Number, Value::Number(number)) => Some(number + 1),
            _ => None,
        }
    }

    /// The same among the first names of each attribute alone, as many as `shown` says. It takes no memory.
    pub fn code_within(&self, shown: &Lengths, attr: u32, value: &Value) -> Option<u64>
        requires declared { attr < length self.now.kinds }
        requires within { IsWithin number_limit value.now }
        ensures { result ≡ code_for (kind_at self.now attr) (shown_names self.now shown.now.at attr) value.now }
    {
        match (self.kinds[attr as usize], value) {
            (Kind::Word { .. }, Value::Word(text)) => {
                self.names[attr as usize].code_within(
                    shown.at[attr as usize] as usize,
                    text.as_bytes(),
                )
            }
            (Kind::Number, Value::Number(number)) => Some(number + 1),
            _ => None,
        }
    }

    /// The value of a coordinate. It is none exactly where no value has it.
    pub fn value_of(&self, attr: u32, code: u64) -> Option<ValueRef<'_>>
        requires { attr < length self.now.kinds }
        ensures value { option_map shown result ≡ value_of self.now attr code }
        ensures back { IfSome (option_map shown result) (λ value. code_at self.now attr value ≡ Some code) }
    {
        if code == 0 {
            return None;
        }
        match self.kinds[attr as usize] {
            Kind::Word { .. } => match self.names[attr as usize].text_of(code) {
                Some(text) => Some(ValueRef::Word(text)),
                None => None,
            },
            Kind::Number => {
                if code > GREATEST_NUMBER + 1 {
                    return None;
                }
                Some(ValueRef::Number(code - 1))
            }
        }
    }

    /// How many names each attribute has. It takes no memory.
    pub fn lengths(&self) -> Lengths
        ensures { (a : ℕ) → slice_index result.at a ≡ length (names_at self.now a) }
    {
        lengths_of(self.names.as_slice())
    }

    /// Drops the newest names down to these lengths. It takes no memory.
    pub fn forget(&mut self, lengths: &Lengths)
        requires { (a : ℕ) → slice_index lengths.now.at a ≤ length (names_at self.old a) }
        ensures kinds { self.new.kinds ≡ self.old.kinds }
        ensures names { (a : ℕ) → names_at self.new a ≡ take (slice_index lengths.now.at a) (names_at self.old a) }
    {
        cut(&mut self.names, lengths);
    }

    /// Gives codes to the new texts of the facts, and gives the coordinates of all facts and the entries of the names file for the new
    /// names, in order of fact and then of attribute. After a refusal all is as before.
    pub fn admit(&mut self, facts: &Batch) -> Result<Admitted, DictRefusal>
        requires { All (Agrees self.old.kinds) facts.now }
        ensures kinds { self.new.kinds ≡ self.old.kinds }
        ensures names { OnOk result ((a : ℕ) → names_at self.new a ≡ names_with self.old facts.now a) }
        ensures coded { IfOk result (λ admitted. admitted.coded ≡ map (codes_of self.new.names) facts.now) }
        // All values of the facts have codes now, and in each view of attributes that there are, the coordinates are these codes.
        ensures known { OnOk result (All (IsCoded (names_at self.new)) facts.now) }
        ensures narrow { OnOk result (All (HasSmallCodes (names_at self.new)) facts.now) }
        ensures viewed { (view : View) → All (λ a. a < length self.old.kinds) view → IfOk result (λ admitted. All (CodedBy (names_at self.new) view) (zip admitted.coded facts.now)) }
        ensures placed { (view : View) → All (λ a. a < length self.old.kinds) view → IfOk result (λ admitted. All (λ (coordinates : List ℕ). All (λ a. 1 ≤ slice_index coordinates a) view) admitted.coded) }
        ensures entries { (seen : List (ℕ × Text)) → Lists self.old seen → IfOk result (λ admitted. admitted.names ≡ entries_text (fresh same_entry seen (named facts.now))) }
        ensures len { IfOk result (λ admitted. entries_len self.new ≡ entries_len self.old + length admitted.names) }
        ensures limit { entries_len self.new ≤ entries_limit }

        ensures none { OnOk result (first_full self.old facts.now ≡ None) }
        ensures full { IfErr result (IsFull self.old facts.now) }
        ensures unchanged { OnErr result (self.new ≡ self.old) }
    {
        let before = lengths_of(self.names.as_slice());
        let taken = take_in(self.alloc, self.kinds.as_slice(), &mut self.names, facts);
        match taken {
            Ok(admitted) => Ok(admitted),
            Err(refusal) => {
                cut(&mut self.names, &before);
                Err(refusal)
            }
        }
    }

    /// Takes in the entries of a names file. After a refusal nothing is said of the names.
    pub fn read_names(&mut self, bytes: &[u8]) -> Result<(), NamesStop>
        ensures kinds { self.new.kinds ≡ self.old.kinds }
        ensures read { OnOk result (HasRead self.old self.new bytes.now []) }
        ensures len { OnOk result (entries_len self.new ≡ entries_len self.old + length bytes.now) }
        ensures damaged { IfErr result (HasCause self.old bytes.now) }
        // Entries that can enter are read as such.
        ensures only { (es : List (ℕ × Text)) → bytes.now ≡ entries_text es → all_enter self.old es ≡ true → IfErr result (λ stop. stop ≡ NamesStop.Memory) }
        ensures same { (es : List (ℕ × Text)) → bytes.now ≡ entries_text es → OnOk result (self.new ≡ after_entries self.old es) }
    {
        read_entries(self.kinds.as_slice(), &mut self.names, bytes)
    }
}

fn kinds_of(alloc: Global, attrs: &[Attr]) -> Result<Vec<Kind>, Memory>
    ensures { IfOk result (λ kinds. kinds.items ≡ map (λ (attr : Attr). attr.kind) attrs.now) }
{
    let mut kinds = Vec::new(alloc);
    for attr in attrs {
        kinds.push(attr.kind)?;
    }
    Ok(kinds)
}

fn no_names(alloc: Global, seed: Seed, attrs: &[Attr]) -> Result<Vec<Names>, Memory>
    ensures { IfOk result (λ names. names.items ≡ map (λ (attr : Attr). none_yet) attrs.now) }
{
    let mut names = Vec::new(alloc);
    for _attr in attrs {
        names.push(Names::new(alloc, seed))?;
    }
    Ok(names)
}
