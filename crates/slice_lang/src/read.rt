//! Reading the text of a slice.
ghost use Rattle.std.specs.Prelude.{◌≡◌, [], IfOk};
ghost use Rattle.fact_model.specs.declared.slice.Slice.{Slice};
ghost use Rattle.cube_schema.specs.Lawful.{IsSchema};
ghost use Rattle.slice_lang.specs.Agreeing.{SliceAgrees};
ghost use Rattle.slice_lang.specs.Answers.{Answers};
ghost use Rattle.slice_lang.specs.Grammar.{Says};
ghost use Rattle.slice_lang.specs.Reading.{behind_group, behind_columns, words_in, slice_of};

use crate::columns::{read_columns, read_group};
use crate::conds::read_conds;
use crate::parts::{Part, parts_of};
use crate::refusal::SliceRefusal;
use cube_schema::Schema;
use fact_model::{AttrList, ColumnList, CondList, Slice};
use std::alloc::Global;

/// Reads the text of a slice by a schema. It is refused by the first rule from the left that is broken, with the byte of its place, and
/// `Memory` comes only where memory was short. The slice agrees with the schema.
#[tactic(auto, using(crate::proofs::Agreed::slice_answer, crate::proofs::Told::said_answer, crate::proofs::SliceTexts::read_answer))]
pub fn read_slice(alloc: Global, schema: &Schema, text: &[u8]) -> Result<Slice, SliceRefusal>
    requires { IsSchema schema.now }
    // The slice, or the first rule that is broken.
    ensures exact { Answers result (slice_of schema.now text.now) }
    ensures lawful { IfOk result (SliceAgrees schema.now) }
    // What is read says the slice, and what says a slice is read as it.
    ensures said { IfOk result (λ slice. Says schema.now slice text.now) }
    ensures read { (slice : Slice) → SliceAgrees schema.now slice → Says schema.now slice text.now → Answers result (Ok slice) }
{
    read_text(alloc, schema, text)
}

#[tactic(auto, unfolding(crate::specs::Reading::slice_of))]
fn read_text(alloc: Global, schema: &Schema, text: &[u8]) -> Result<Slice, SliceRefusal>
    requires { IsSchema schema.now }
    ensures { Answers result (slice_of schema.now text.now) }
{
    let words = parts_of(alloc, b' ', text.len() as u64 + 1, text)?;
    read_words(alloc, schema, words.as_slice())
}

/// The slice of these words, of which the first is the columns.
fn read_words(alloc: Global, schema: &Schema, words: &[Part]) -> Result<Slice, SliceRefusal>
    requires { IsSchema schema.now }
    ensures { Answers result (words_in schema.now words.now) }
{
    match words {
        [] => Err(SliceRefusal::Syntax(1)),
        [word, more @ ..] => {
            let columns = read_columns(alloc, schema, word)?;
            behind_columns(alloc, schema, columns, more)
        }
    }
}

/// The slice of these columns, where its group follows behind a `by`, if there is one.
#[tactic(auto, unfolding(crate::specs::Reading::behind_columns))]
fn behind_columns(
    alloc: Global,
    schema: &Schema,
    columns: ColumnList,
    words: &[Part],
) -> Result<Slice, SliceRefusal>
    requires { IsSchema schema.now }
    ensures { Answers result (behind_columns schema.now columns words.now) }
{
    match words {
        [word, names, more @ ..] if word.is_word(b"by") => {
            let group = read_group(alloc, schema, names)?;
            behind_group(alloc, schema, columns, group, more)
        }
        _ => behind_group(alloc, schema, columns, AttrList::new(alloc), words),
    }
}

/// The slice of these columns and this group, where its conditions follow behind a `where`, if there are any.
#[tactic(auto, unfolding(crate::specs::Reading::behind_group))]
fn behind_group(
    alloc: Global,
    schema: &Schema,
    columns: ColumnList,
    group: AttrList,
    words: &[Part],
) -> Result<Slice, SliceRefusal>
    requires { IsSchema schema.now }
    ensures { Answers result (behind_group schema.now columns group words.now) }
{
    let conds = match words {
        [] => CondList::new(alloc),
        [word, first, more @ ..] if word.is_word(b"where") => {
            read_conds(alloc, schema, first, more)?
        }
        [word, ..] => return Err(SliceRefusal::Syntax(word.before())),
    };
    Ok(Slice {
        columns,
        group,
        conds,
    })
}
