//! Where the facts of a batch come from.

use script_lang::Block;

/// Where the facts of a batch come from.
#[derive(Drop)]
pub enum BatchSource {
    /// The rows of a block.
    Rows(Block),
    /// The rows of a block, as a numbered batch, which counts once however often it is sent.
    Numbered {
        /// Which of the numbered batches it is. They count from 1.
        number: u64,
        /// Its rows.
        block: Block,
    },
    /// The generator, which makes so many facts from a start.
    Generator {
        /// The state that the generator begins with.
        start: u64,
        /// How many facts it makes.
        rows: u64,
    },
}
