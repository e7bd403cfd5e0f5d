//! A plan.
use fact_model::Slice;

/// How a query is answered.
#[derive(Debug, Drop)]
pub struct Plan {
    /// The slice whose rows it is answered from.
    pub slice: Slice,
    /// Whether no fact can meet the tests, since two of them want different texts of one attribute.
    pub empty: bool,
}
