//! Facts and their values.
ghost use Rattle.std.specs.Prelude.{◌≡◌, IfOk};
ghost use Rattle.fact_model.specs.Fact.{value_at, measure_at};

use crate::list::ListOf;
use crate::memory::Memory;
use crate::text::Text;

/// The most bytes of a text.
pub const LONGEST_TEXT: usize = 255;

/// The greatest value of a number attribute.
pub const GREATEST_NUMBER: u64 = 9_223_372_036_854_775_807;

/// A value of an attribute. Numbers are ordered by value, and texts by their bytes.
#[derive(Clone, Debug, PartialEq, Eq, PartialOrd, Ord, Hash, Drop)]
pub enum Value {
    /// The value of a text attribute.
    Word(Text),
    /// The value of a number attribute.
    Number(u64),
}

/// Values in order.
pub type ValueList = ListOf<Value>;

/// Whole numbers in order.
pub type NumberList = ListOf<i128>;

/// Facts in the order in which they were accepted.
pub type FactList = ListOf<Fact>;

/// One value for each attribute and one whole number for each measure, in order of declaration.
#[derive(Debug, Drop)]
pub struct Fact {
    /// The values of the attributes.
    pub values: ValueList,
    /// The numbers of the measures.
    pub measures: NumberList,
}

impl Value {
    /// The same value once more.
    pub fn copy(&self) -> Result<Value, Memory>
        ensures { IfOk result (λ copy. copy ≡ self.now) }
    {
        Ok(self.clone()?)
    }
}

impl Fact {
    /// A copy of the value of an attribute, which is the number 0 where the fact has no such attribute.
    #[tactic(auto, using(crate::proofs::Defaults::reads))]
    pub fn value(&self, attr: u32) -> Result<Value, Memory>
        ensures { IfOk result (λ value. value ≡ value_at self.now attr) }
    {
        match self.values.get(attr as usize) {
            Some(value) => value.copy(),
            None => Ok(Value::Number(0)),
        }
    }

    /// The number of a measure, which is 0 where the fact has no such measure.
    #[tactic(auto, using(crate::proofs::Defaults::reads))]
    pub fn measure(&self, measure: u32) -> i128
        ensures { result ≡ measure_at measure self.now }
    {
        self.measures.get(measure as usize).copied().unwrap_or(0)
    }
}
