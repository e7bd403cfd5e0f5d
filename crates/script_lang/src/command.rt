//! The commands of a script.
use fact_model::Text;

/// The block between a command's line and its line `end`.
#[derive(Drop)]
pub enum Block {
    /// The bytes of its lines, each with its line feed. There are at most 67,108,864.
    Whole(Text),
    /// There were more bytes, and they were skipped.
    Long,
}

/// A command of a script.
#[derive(Drop)]
pub enum Command {
    /// Declare the schema of this block.
    Schema(Block),
    /// Load the batch of this block.
    Load(Block),
    /// Load the batch of this block, which is accepted once, however often it is sent.
    LoadNumbered {
        /// The number of the batch among the numbered batches. They count from 1.
        number: u64,
        /// Its rows.
        block: Block,
    },
    /// Begin to load the batch of this block.
    Begin(Block),
    /// Make this many moves for the pending batch.
    Step(u64),
    /// Make all remaining moves, and accept the pending batch.
    Finish,
    /// Discard the pending batch.
    Abandon,
    /// Answer the slice of this text, which may be empty.
    Slice(Text),
    /// Report which view answers the slice of this text, and how its points lie there.
    Explain(Text),
    /// Answer the query of this text, which may be empty.
    Sql(Text),
    /// Give each value of an attribute a parent, by the pairs of this block. The level lasts until the script ends.
    Level {
        /// The name of the level, which is not empty.
        name: Text,
        /// The name of the attribute, which is not empty.
        attr: Text,
        /// The values with their parents.
        block: Block,
    },
    /// Answer the slice of this text, which may be empty and may name levels.
    Rollup(Text),
    /// Report the number of facts.
    Status,
    /// Rewrite the pages in the greatest format.
    Upgrade,
    /// Report whether the files keep all rules, or where the first broken one is.
    Audit,
    /// Load a batch of generated rows.
    Generate {
        /// The initial state of the generator.
        start: u64,
        /// The number of rows.
        rows: u64,
    },
    /// A line that is not a command.
    Unknown,
    /// A command line of more than 65,536 bytes.
    LongLine,
    /// The script ended within a block. The command that began the block is not returned.
    OpenBlock,
}
