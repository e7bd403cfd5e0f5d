//! Replies that refuse a schema, a batch, a level, a slice or a query.
ghost use Rattle.std.specs.Prelude.{◌≡◌, ◌≢◌, ◌++◌, IfOk, OnOk};
ghost use Rattle.fact_csv.specs.declared.refusal.RowRefusal.TheVariants as rows;
ghost use Rattle.roll_up.specs.declared.refusal.LevelRefusal.TheVariants as levels;
ghost use Rattle.reply_text.specs.Replies.{line, schema_text, batch_text, gap_text, full_text, level_text, mass_text, slice_text, query_text};

use crate::line::{numbered, plain};
use cube_schema::SchemaRefusal;
use fact_csv::RowRefusal;
use fact_model::Memory;
use roll_up::LevelRefusal;
use slice_lang::SliceRefusal;
use sql_lang::SqlRefusal;
use std::alloc::Global;

/// The refusal of a schema by the first rule that it breaks. Want of memory has no reply.
pub fn refused_schema(alloc: Global, refusal: SchemaRefusal) -> Result<Vec<u8>, Memory>
    ensures text { IfOk result (λ reply. reply.items ≡ schema_text refusal) }
    ensures refused { OnOk result (refusal ≢ SchemaRefusal.Memory) }
{
    match refusal {
        SchemaRefusal::Line(line) => numbered(alloc, "refused schema line ", line),
        SchemaRefusal::Name(line) => numbered(alloc, "refused schema name ", line),
        SchemaRefusal::Repeated(line) => numbered(alloc, "refused schema repeated ", line),
        SchemaRefusal::UnknownAttr(line) => numbered(alloc, "refused schema attribute ", line),
        SchemaRefusal::TooMany(line) => numbered(alloc, "refused schema many ", line),
        SchemaRefusal::Range(line) => numbered(alloc, "refused schema range ", line),
        SchemaRefusal::NoAttribute => plain(alloc, "refused schema no attribute"),
        SchemaRefusal::NoMeasure => plain(alloc, "refused schema no measure"),
        SchemaRefusal::NoView => plain(alloc, "refused schema no view"),
        SchemaRefusal::Memory => Err(Memory),
    }
}

/// The refusal of a batch by its first fault. Want of memory has no reply.
pub fn refused_batch(alloc: Global, refusal: RowRefusal) -> Result<Vec<u8>, Memory>
    ensures text { IfOk result (λ reply. reply.items ≡ batch_text refusal) }
    ensures refused { OnOk result (refusal ≢ RowRefusal.Memory) }
{
    match refusal {
        RowRefusal::Rows => plain(alloc, "refused rows"),
        RowRefusal::Fields(row) => refused_fields(alloc, row),
        RowRefusal::Number { row, field } => refused_number(alloc, row, field),
        RowRefusal::Long { row, field } => refused_long(alloc, row, field),
        RowRefusal::Memory => Err(Memory),
    }
}

fn refused_fields(alloc: Global, row: u64) -> Result<Vec<u8>, Memory>
    ensures { IfOk result (λ reply. reply.items ≡ batch_text (rows.Fields row)) }
{
    Ok(format!(in alloc; "refused row {row} fields\n")?.into_bytes())
}

fn refused_number(alloc: Global, row: u64, field: u64) -> Result<Vec<u8>, Memory>
    ensures { IfOk result (λ reply. reply.items ≡ batch_text (rows.Number row field)) }
{
    Ok(format!(in alloc; "refused row {row} number {field}\n")?.into_bytes())
}

fn refused_long(alloc: Global, row: u64, field: u64) -> Result<Vec<u8>, Memory>
    ensures { IfOk result (λ reply. reply.items ≡ batch_text (rows.Long row field)) }
{
    Ok(format!(in alloc; "refused row {row} long {field}\n")?.into_bytes())
}

/// The refusal of a level by the first reason against it; a fault of its rows is told as that of a batch. Want of memory has no reply.
pub fn refused_level(alloc: Global, refusal: LevelRefusal) -> Result<Vec<u8>, Memory>
    ensures text { IfOk result (λ reply. reply.items ≡ level_text refusal) }
    ensures refused { OnOk result (refusal ≢ LevelRefusal.Memory) }
{
    match refusal {
        LevelRefusal::Name => plain(alloc, "refused level name"),
        LevelRefusal::Attribute => plain(alloc, "refused level attribute"),
        LevelRefusal::Many => plain(alloc, "refused level many"),
        LevelRefusal::Rows => plain(alloc, "refused rows"),
        LevelRefusal::Fields(row) => refused_fields(alloc, row),
        LevelRefusal::Number(row) => refused_number(alloc, row, 1),
        LevelRefusal::Long { row, field } => refused_long(alloc, row, field),
        LevelRefusal::Repeated(row) => refused_repeated(alloc, row),
        LevelRefusal::Memory => Err(Memory),
    }
}

fn refused_repeated(alloc: Global, row: u64) -> Result<Vec<u8>, Memory>
    ensures { IfOk result (λ reply. reply.items ≡ level_text (levels.Repeated row)) }
{
    Ok(format!(in alloc; "refused row {row} repeated\n")?.into_bytes())
}

/// The refusal of a numbered batch where the one of this number is due.
pub fn refused_gap(alloc: Global, due: u64) -> Result<Vec<u8>, Memory>
    ensures { IfOk result (λ reply. reply.items ≡ gap_text due) }
{
    numbered(alloc, "refused gap ", due)
}

/// The refusal of a batch by the names of the attribute of this name.
pub fn refused_names(alloc: Global, name: &[u8]) -> Result<Vec<u8>, Memory>
    ensures { IfOk result (λ reply. reply.items ≡ full_text name.now) }
{
    named(alloc, b"refused names ", name)
}

/// The refusal of a batch by the mass of the measure of this name.
pub fn refused_mass(alloc: Global, name: &[u8]) -> Result<Vec<u8>, Memory>
    ensures { IfOk result (λ reply. reply.items ≡ mass_text name.now) }
{
    named(alloc, b"refused mass ", name)
}

/// One line of a text and a name behind it.
fn named(alloc: Global, text: &[u8], name: &[u8]) -> Result<Vec<u8>, Memory>
    ensures { IfOk result (λ reply. reply.items ≡ text.now ++ line name.now) }
{
    let mut reply = Vec::from_slice(alloc, text)?;
    reply.extend_from_slice(name)?;
    reply.push(b'\n')?;
    Ok(reply)
}

/// The refusal of a slice by the first rule that its text breaks. Want of memory has no reply.
pub fn refused_slice(alloc: Global, refusal: SliceRefusal) -> Result<Vec<u8>, Memory>
    ensures text { IfOk result (λ reply. reply.items ≡ slice_text refusal) }
    ensures refused { OnOk result (refusal ≢ SliceRefusal.Memory) }
{
    match refusal {
        SliceRefusal::Syntax(byte) => numbered(alloc, "refused syntax ", byte),
        SliceRefusal::UnknownAttr(byte) => numbered(alloc, "refused attribute ", byte),
        SliceRefusal::UnknownMeasure(byte) => numbered(alloc, "refused measure ", byte),
        SliceRefusal::Repeated(byte) => numbered(alloc, "refused repeated ", byte),
        SliceRefusal::BadValue(byte) => numbered(alloc, "refused value ", byte),
        SliceRefusal::Memory => Err(Memory),
    }
}

/// The refusal of a query by the first rule that its text breaks. Want of memory has no reply.
pub fn refused_query(alloc: Global, refusal: SqlRefusal) -> Result<Vec<u8>, Memory>
    ensures text { IfOk result (λ reply. reply.items ≡ query_text refusal) }
    ensures refused { OnOk result (refusal ≢ SqlRefusal.Memory) }
{
    match refusal {
        SqlRefusal::Syntax(byte) => numbered(alloc, "refused sql syntax ", byte),
        SqlRefusal::Table(byte) => numbered(alloc, "refused sql table ", byte),
        SqlRefusal::Name(byte) => numbered(alloc, "refused sql name ", byte),
        SqlRefusal::Group(byte) => numbered(alloc, "refused sql group ", byte),
        SqlRefusal::Value(byte) => numbered(alloc, "refused sql value ", byte),
        SqlRefusal::Memory => Err(Memory),
    }
}
