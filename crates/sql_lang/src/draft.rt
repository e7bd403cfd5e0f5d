//! What has been read of a query so far, and what may come next.
ghost use Rattle.std.specs.Prelude.{◌≡◌, IfOk};
ghost use Rattle.sql_lang.specs.Reading.{goes, query_in, nothing, with_item, with_attr, with_test, with_group};

use crate::query::{Item, ItemList, OperandList, Query, Sign, Test, TestList};
use fact_model::{AttrList, Column, ListOf, Memory};
use std::alloc::Global;

/// Which fold of a measure's numbers a column has.
#[derive(Clone, Copy, Debug, PartialEq, Eq)]
pub(crate) enum Fold {
    Sum,
    Min,
    Max,
}

/// What must come next.
#[derive(Debug, Drop)]
pub(crate) enum Due {
    /// The word SELECT.
    Select,
    /// An item.
    Item,
    /// The `(` after COUNT.
    CountOpen,
    /// The `*` of a count.
    CountStar,
    /// The `(` after SUM, MIN or MAX.
    FoldOpen(Fold),
    /// The measure of a sum, a least or a greatest number.
    Measure(Fold),
    /// The `)` of this column.
    Close(Column),
    /// A comma and an item, or FROM.
    MoreItems,
    /// The table.
    Table,
    /// WHERE, GROUP or the end.
    Clauses,
    /// The attribute of a test.
    Test,
    /// An operator, BETWEEN or IN after the attribute of a test.
    Sign(u32),
    /// What the attribute is compared with.
    Value(u32, Sign),
    /// The low end after BETWEEN.
    Low(u32),
    /// The AND after the low end.
    LowAnd(u32, i128),
    /// The high end.
    High(u32, i128),
    /// The `(` after IN.
    InOpen(u32),
    /// One more value of an IN.
    Member(u32, OperandList),
    /// A comma and a value, or the `)` of an IN.
    MoreMembers(u32, OperandList),
    /// AND and a test, GROUP or the end.
    MoreTests,
    /// The word BY.
    By,
    /// An attribute to group by.
    Group,
    /// A comma and an attribute, or the end.
    MoreGroups,
    /// Nothing.
    Nothing,
}

/// An attribute among the items, and the byte where its name begins.
#[derive(Clone, Copy, Debug, PartialEq, Eq)]
pub(crate) struct Named {
    pub(crate) attr: u32,
    pub(crate) byte: u64,
}

/// What has been read of a query so far.
#[derive(Debug, Drop)]
pub(crate) struct Draft {
    pub(crate) items: ItemList,
    /// The attributes among the items.
    pub(crate) named: ListOf<Named>,
    pub(crate) group: AttrList,
    pub(crate) tests: TestList,
}

/// What has been read so far, and what must come next.
#[derive(Debug, Drop)]
pub(crate) struct Reader {
    pub(crate) due: Due,
    pub(crate) draft: Draft,
}

impl Draft {
    /// The draft before anything is read.
    pub(crate) fn new(alloc: Global) -> Draft
        ensures { result ≡ nothing }
    {
        Draft {
            items: ItemList::new(alloc),
            named: ListOf::new(alloc),
            group: AttrList::new(alloc),
            tests: TestList::new(alloc),
        }
    }

    /// This must come next.
    pub(crate) fn goes(self, due: Due) -> Reader
        ensures { result ≡ goes self due }
    {
        Reader { due, draft: self }
    }

    /// The draft with one more item.
    pub(crate) fn with_item(self, item: Item) -> Result<Draft, Memory>
        ensures { IfOk result (λ draft. draft ≡ with_item self item) }
    {
        let mut draft = self;
        draft.items.push(item)?;
        Ok(draft)
    }

    /// The draft with one more attribute among the items, named at this byte.
    pub(crate) fn with_attr(self, attr: u32, byte: u64) -> Result<Draft, Memory>
        ensures { IfOk result (λ draft. draft ≡ with_attr self attr byte) }
    {
        let mut draft = self;
        draft.items.push(Item::Attr(attr))?;
        draft.named.push(Named { attr, byte })?;
        Ok(draft)
    }

    /// The draft with one more test.
    pub(crate) fn with_test(self, test: Test) -> Result<Draft, Memory>
        ensures { IfOk result (λ draft. draft ≡ with_test self test) }
    {
        let mut draft = self;
        draft.tests.push(test)?;
        Ok(draft)
    }

    /// The draft with one more attribute to group by.
    pub(crate) fn with_group(self, attr: u32) -> Result<Draft, Memory>
        ensures { IfOk result (λ draft. draft ≡ with_group self attr) }
    {
        let mut draft = self;
        draft.group.push(attr)?;
        Ok(draft)
    }

    /// The draft as a query.
    pub(crate) fn into_query(self) -> Query
        ensures { result ≡ query_in self }
    {
        let Draft {
            items,
            group,
            tests,
            ..
        } = self;
        Query {
            items,
            group,
            tests,
        }
    }
}
