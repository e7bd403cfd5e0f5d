//! The parts of an input.
ghost use Rattle.std.specs.Prelude.{◌≡◌, ◌≤◌, ◌<◌, ◌+◌, length};
ghost use Rattle.reply_fold.specs.Input.{is_whole, place_of_end};

/// What ends the block of the schema: the line feed of its last line, then a line `end`.
pub(crate) const END: &[u8] = b"\nend\n";

/// The place of the first line feed that is followed by a line `end`, or the length if there is none.
pub(crate) fn place_of_end(input: &[u8]) -> usize
    ensures place { result ≡ place_of_end input.now }
    ensures within { result < length input.now → result + 5 ≤ length input.now }
    ensures most { result ≤ length input.now }
{
    for at in 0..input.len() {
        if input[at..].starts_with(END) {
            return at;
        }
    }
    input.len()
}

/// Whether the last line ends with a line feed.
#[tactic(auto, using(fact_model::proofs::Defaults::reads))]
pub(crate) fn is_whole(replies: &[u8]) -> bool
    ensures { result ≡ is_whole replies.now }
{
    match replies.last() {
        Some(byte) => *byte == b'\n',
        None => false,
    }
}
