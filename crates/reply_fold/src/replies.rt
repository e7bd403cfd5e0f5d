//! What replies say.
use fact_model::{Rows, Slice, Text};

/// What the replies of all parts say.
#[derive(Drop)]
pub enum Replies {
    /// Each is this refusal, without its line feed.
    Refused(Text),
    /// Each has rows of a slice.
    Rows {
        /// The slice.
        slice: Slice,
        /// The rows of all replies, in sequence.
        rows: Rows,
    },
}
