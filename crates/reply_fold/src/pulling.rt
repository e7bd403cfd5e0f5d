//! Reads the input, which a source gives in pieces.
ghost use Rattle.std.specs.Prelude.{◌≡◌, ◌≢◌, ◌≤◌, ◌<◌, List, Ok, Err, IfOk, IfErr, IsTrue, vec_len};
ghost use Rattle.cube_schema.specs.declared.schema.Schema as schemas;
ghost use Rattle.fact_model.specs.declared.fact.Fact as facts;
ghost use Rattle.site_core.specs.Causes.{HasCauseWhere};
ghost use Rattle.site_core.specs.Pull.{Gives};
ghost use Rattle.reply_fold.specs.Answers.{Answers};
ghost use Rattle.reply_fold.specs.Input.{text_in};
ghost use Rattle.reply_fold.specs.Whole.{AreOfAll, HasParts, IsFold, reply_over, said_in};
ghost use Rattle.reply_fold.specs.declared.fault.Fault.TheVariants as faults;

use crate::fault::Fault;
use crate::whole::fold_input;
use fact_model::Text;
use fact_model::bytes::front;
use site_core::Source;
use std::alloc::{AllocError, Global};

/// The most bytes of a pull.
const PIECE: usize = 65_536;

/// The reply of the whole to the input of a source: the block of a schema, a line `end`, a line with the text of a slice, and the replies
/// of the parts to it, one after the other. The whole input is kept in memory, and so are all rows of the replies.
pub fn fold<S: Source>(alloc: Global, source: &mut S) -> Result<Text, Fault>
    // If the replies are those of the plain machine over the parts, this is its reply over all their facts, in any order.
    ensures whole { IsTrue S.tells → result ≢ Err faults.Input → (schema : schemas.Schema) (parts : List (List facts.Fact)) (all : List facts.Fact)
        → HasParts (S.left source.old) schema parts → AreOfAll parts all → Answers result (Ok (reply_over schema (text_in (S.left source.old)) all)) }
    // For any input.
    ensures exact { IsTrue S.tells → result ≢ Err faults.Input → IsFold (said_in (S.left source.old)) result }
    ensures input { HasCauseWhere faults.Input (S.faults source.old) (S.faults source.new) result }
{
    let input = read_all(alloc, source)?;
    fold_input(alloc, &input)
}

/// Everything that a source gives.
fn read_all<S: Source>(alloc: Global, source: &mut S) -> Result<Vec<u8>, Fault>
    ensures all { IsTrue S.tells → IfOk result (λ bytes. bytes.items ≡ S.left source.old) }
    ensures input { HasCauseWhere faults.Input (S.faults source.old) (S.faults source.new) result }
    ensures why { IfErr result (λ why. why ≢ faults.Input → why ≡ faults.Memory) }
{
    let mut bytes = Vec::new(alloc);
    let mut piece = room(alloc, PIECE)?;
    for _ in 0..u64::MAX {
        let count = pull(source, &mut piece)?;
        if count == 0 {
            return Ok(bytes);
        }
        bytes.extend_from_slice(front(&piece, count))?;
    }
    // Memory cannot hold this many bytes.
    Err(Fault::Memory)
}

/// A buffer of `count` bytes.
fn room(alloc: Global, count: usize) -> Result<Vec<u8>, AllocError>
    ensures { IfOk result (λ bytes. vec_len bytes ≡ count) }
{
    vec![in alloc; 0u8; count]
}

/// Pulls a piece, and returns the number of bytes: zero only at the end.
fn pull<S: Source>(source: &mut S, into: &mut Vec<u8>) -> Result<usize, Fault>
    requires some { 0 < vec_len into.old }
    requires few { vec_len into.old ≤ 65536 }
    ensures bytes { IsTrue S.tells → IfOk result (λ count. Gives (S.left source.old) (S.left source.new) count into.new.items) }
    ensures room { vec_len into.new ≡ vec_len into.old }
    ensures input { HasCauseWhere faults.Input (S.faults source.old) (S.faults source.new) result }
    ensures why { IfErr result (λ why. why ≡ faults.Input) }
{
    match source.pull(into.as_mut_slice()) {
        Ok(count) => Ok(count),
        Err(_) => Err(Fault::Input),
    }
}
