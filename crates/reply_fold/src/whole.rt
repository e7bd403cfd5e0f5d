//! The reply of the whole, from an input as bytes.
ghost use Rattle.std.specs.Prelude.{◌≡◌, ◌≢◌, List, Ok, IfOk, false};
ghost use Rattle.cube_schema.specs.Lawful.{IsSchema};
ghost use Rattle.cube_schema.specs.Reading.{schema_of};
ghost use Rattle.cube_schema.specs.declared.schema.Schema as schemas;
ghost use Rattle.fact_model.specs.declared.fact.Fact as facts;
ghost use Rattle.slice_lang.specs.Agreeing.{SliceAgrees};
ghost use Rattle.slice_lang.specs.Reading.{slice_of};
ghost use Rattle.reply_fold.specs.Answers.{Answers};
ghost use Rattle.reply_fold.specs.Input.{text_in};
ghost use Rattle.reply_fold.specs.Whole.{AreOfAll, AreWide, HasParts, IsFold, IsJoined, as_schema, is_short, replies_said, reply_over, said_in};

use crate::fault::Fault;
use crate::input::{END, is_whole, place_of_end};
use crate::joining::joined_text;
use crate::records::{first_refusal, read_rows, share_refusal};
use crate::replies::Replies;
use crate::text::refusal_text;
use cube_schema::{Schema, SchemaRefusal};
use fact_model::bytes::{after, cut_at, front};
use fact_model::{Memory, Rows, Slice, Text};
use slice_lang::{SliceRefusal, read_slice};
use std::alloc::Global;

/// The reply of the whole to an input: the block of a schema, a line `end`, a line with the text of a slice, and the replies of the parts
/// to it, one after the other.
pub fn fold_input(alloc: Global, input: &[u8]) -> Result<Text, Fault>
    // If the replies are those of the plain machine over the parts, this is its reply over all their facts, in any order.
    ensures whole { (schema : schemas.Schema) (parts : List (List facts.Fact)) (all : List facts.Fact) → HasParts input.now schema parts
        → AreOfAll parts all → Answers result (Ok (reply_over schema (text_in input.now) all)) }
    // For any input.
    ensures exact { IsFold (said_in input.now) result }
{
    fold_said(alloc, input)
}

fn fold_said(alloc: Global, input: &[u8]) -> Result<Text, Fault>
    ensures { IsFold (said_in input.now) result }
{
    let replies = read_input(alloc, input)?;
    join(alloc, &replies)
}

/// What the replies of an input say.
#[tactic(auto, unfolding(crate::specs::Whole::said_in))]
fn read_input(alloc: Global, input: &[u8]) -> Result<Replies, Fault>
    ensures said { Answers result (said_in input.now) }
    ensures wide { IfOk result AreWide }
{
    let place = place_of_end(input);
    if place == input.len() {
        return Err(Fault::Heading);
    }
    let rest = after(input, place + END.len());
    let (text, _) = cut_at(b'\n', rest);
    let schema = read_schema(alloc, front(input, place))?;
    let asked = read_asked(alloc, &schema, text)?;
    read_replies(alloc, &schema, asked, after(rest, text.len()))
}

/// The schema of a block.
fn read_schema(alloc: Global, block: &[u8]) -> Result<Schema, Fault>
    ensures schema { Answers result (as_schema (schema_of block.now)) }
    ensures lawful { IfOk result IsSchema }
{
    match Schema::read(alloc, block) {
        Ok(schema) => Ok(schema),
        Err(SchemaRefusal::Memory) => Err(Fault::Memory),
        Err(refusal) => Err(Fault::Schema(refusal)),
    }
}

/// The slice of a text, or why it is not a slice.
fn read_asked(
    alloc: Global,
    schema: &Schema,
    text: &[u8],
) -> Result<Result<Slice, SliceRefusal>, Memory>
    requires { IsSchema schema.now }
    ensures asked { IfOk result (λ asked. slice_of schema.now text.now ≡ asked) }
    ensures known { IfOk result (λ asked. is_short asked ≡ false) }
{
    match read_slice(alloc, schema, text) {
        Ok(slice) => Ok(Ok(slice)),
        Err(SliceRefusal::Memory) => Err(Memory),
        Err(refusal) => Ok(Err(refusal)),
    }
}

/// What the replies to a slice say.
fn read_replies(
    alloc: Global,
    schema: &Schema,
    asked: Result<Slice, SliceRefusal>,
    replies: &[u8],
) -> Result<Replies, Fault>
    ensures said { Answers result (replies_said schema.now asked replies.now) }
    ensures wide { IfOk result AreWide }
{
    if !is_whole(replies) {
        return Err(Fault::Cut);
    }
    if let Some(text) = first_refusal(alloc, replies)? {
        share_refusal(alloc, replies, text.as_bytes())?;
        return Ok(Replies::Refused(text));
    }
    match asked {
        Ok(slice) => {
            let rows = read_rows(alloc, schema, &slice, replies)?;
            Ok(Replies::Rows { slice, rows })
        }
        Err(refusal) => Err(Fault::Slice(refusal)),
    }
}

/// The reply of the whole.
fn join(alloc: Global, replies: &Replies) -> Result<Text, Fault>
    requires { AreWide replies.now }
    ensures { IsJoined replies.now result }
{
    match replies {
        Replies::Refused(text) => Ok(Text::from_vec(refusal_text(alloc, text.as_bytes())?)),
        Replies::Rows { slice, rows } => join_rows(alloc, slice, rows),
    }
}

/// The reply for rows, if their numbers add up.
fn join_rows(alloc: Global, slice: &Slice, rows: &Rows) -> Result<Text, Fault>
    requires { AreWide (Replies.Rows slice.now rows.now) }
    ensures { IsJoined (Replies.Rows slice.now rows.now) result }
{
    if !rows.adds() {
        return Err(Fault::Sum);
    }
    let text = joined_text(alloc, slice.columns.as_slice(), rows.as_slice())?;
    Ok(Text::from_vec(text))
}
