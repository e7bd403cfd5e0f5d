//! A query.
ghost use Rattle.std.specs.Prelude.{◌≡◌};
ghost use Rattle.sql_lang.specs.Tests.{attr_of, is_list};

use fact_model::{AttrList, Column, ListOf, Text};

/// What an attribute is compared with.
#[derive(Debug, Drop)]
pub enum Operand {
    /// A text.
    Word(Text),
    /// A whole number, of a magnitude below 2^127.
    Whole(i128),
}

/// The operator of a comparison.
#[derive(Clone, Copy, Debug, PartialEq, Eq)]
pub enum Sign {
    /// Equal.
    Equal,
    /// Less.
    Less,
    /// Less or equal.
    LessEqual,
    /// Greater.
    More,
    /// Greater or equal.
    MoreEqual,
}

/// A test of the facts by one attribute, which is named by its number, counted from 0.
#[derive(Debug, Drop)]
pub enum Test {
    /// The attribute compares with a value by the operator.
    Compare {
        attr: u32,
        sign: Sign,
        value: Operand,
    },
    /// The attribute is a number from `low` to `high`, both included.
    Between {
        attr: u32,
        low: i128,
        high: i128,
    },
    /// The attribute is one of these values.
    OneOf {
        attr: u32,
        values: OperandList,
    },
}

/// An item of a group's row.
#[derive(Clone, Copy, Debug, PartialEq, Eq)]
pub enum Item {
    /// Its value of an attribute.
    Attr(u32),
    /// A number of its facts.
    Column(Column),
}

/// Operands in order.
pub type OperandList = ListOf<Operand>;

/// Tests, all of which a fact must meet.
pub type TestList = ListOf<Test>;

/// Items in order.
pub type ItemList = ListOf<Item>;

/// A query: items of each group of the facts that meet every test.
#[derive(Debug, Drop)]
pub struct Query {
    /// The items of each group.
    pub items: ItemList,
    /// The attributes whose values make a group.
    pub group: AttrList,
    /// The tests of the facts.
    pub tests: TestList,
}

impl Test {
    /// The number of the attribute.
    pub fn attr(&self) -> u32
        ensures { result ≡ attr_of self.now }
    {
        match self {
            Test::Compare { attr, .. } | Test::Between { attr, .. } | Test::OneOf { attr, .. } => {
                *attr
            }
        }
    }

    /// Whether it is an IN.
    pub fn is_list(&self) -> bool
        ensures { result ≡ is_list self.now }
    {
        match self {
            Test::OneOf { .. } => true,
            Test::Compare { .. } | Test::Between { .. } => false,
        }
    }
}
