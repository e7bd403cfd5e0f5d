//! The script, as a source gives it in pieces.
ghost use Rattle.std.specs.Prelude.{◌≤◌, ◌<◌, IfOk, vec_len};
ghost use Rattle.cube_run.specs.Pulls.{PullsInto};

use crate::exit::Status;
use site_core::Source;
use std::alloc::{AllocError, Global};

/// The most bytes of a piece.
const LONGEST_PIECE: usize = 65_536;

/// Room for a piece of at most so many bytes: in this buffer, where it has any room, so that no piece but the first takes memory.
pub fn room(alloc: Global, mut buffer: Vec<u8>, most: usize) -> Result<Vec<u8>, AllocError>
    requires { 0 < most }
    ensures some { IfOk result (λ bytes. 0 < vec_len bytes) }
    ensures piece { IfOk result (λ bytes. vec_len bytes ≤ 65536) }
    ensures most { IfOk result (λ bytes. vec_len bytes ≤ most) }
{
    let count = most.min(LONGEST_PIECE);
    if buffer.is_empty() {
        return vec![in alloc; 0u8; count];
    }
    buffer.truncate(count);
    Ok(buffer)
}

/// Pulls a piece of at most as many bytes as there is room for, and answers how many came: none only at the end of the script.
/// A pull that fails takes nothing.
pub fn pull<S: Source>(source: &mut S, into: &mut Vec<u8>) -> Result<usize, Status>
    requires some { 0 < vec_len into.old }
    requires few { vec_len into.old ≤ 65536 }
    ensures { PullsInto S.Source source.old source.new into.old.items into.new.items result }
{
    match source.pull(into.as_mut_slice()) {
        Ok(count) => Ok(count),
        Err(_) => Err(Status::Input),
    }
}
