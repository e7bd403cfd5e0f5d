//! What one line of a script says.
ghost use Rattle.std.specs.Prelude.{◌≡◌, IfOk, nat_eq};
ghost use Rattle.std.specs.List.{before_first, after_first, starts_with};
ghost use Rattle.script_lang.specs.Script.{KeepsLimit, SaysNoBlock};
ghost use Rattle.script_lang.specs.Said.{is_text, said_in, said_with, said_by, is_end, is_space, level_in, load_in, step_in, generate_in, count_in};

use crate::command::Command;
use crate::count::read_count;
use fact_model::bytes::{after, cut_at, without_return};
use fact_model::{Memory, Text};
use std::alloc::Global;

/// The greatest length of a line between two blocks, in bytes, with its carriage return.
pub const LONGEST_LINE: usize = 65_536;

/// What a block is for.
#[derive(Drop)]
pub enum Opening {
    Schema,
    Load,
    /// A load with this number.
    Numbered(u64),
    Begin,
    /// The level `name`, over the attribute `attr`.
    Level { name: Text, attr: Text },
}

/// What a line between two blocks says.
#[derive(Drop)]
pub enum Said {
    Nothing,
    Opens(Opening),
    Says(Command),
}

/// Whether the line ends a block.
pub fn is_end(line: &[u8]) -> bool
    ensures { result ≡ is_end line.now }
{
    is_text("end", without_return(line))
}

/// What a line between two blocks says.
pub fn said_by(alloc: Global, line: &[u8]) -> Result<Said, Memory>
    ensures said { IfOk result (λ said. said ≡ said_by line.now) }
    ensures fits { IfOk result SaysNoBlock }
{
    if line.len() > LONGEST_LINE {
        return Ok(Said::Says(Command::LongLine));
    }
    said_in(alloc, without_return(line))
}

/// What a line says, without the carriage return at its end.
fn said_in(alloc: Global, line: &[u8]) -> Result<Said, Memory>
    ensures said { IfOk result (λ said. said ≡ said_in line.now) }
    ensures fits { IfOk result SaysNoBlock }
{
    if line.is_empty() {
        return Ok(Said::Nothing);
    }
    if is_text("schema", line) {
        return Ok(Said::Opens(Opening::Schema));
    }
    if is_text("load", line) {
        return Ok(Said::Opens(Opening::Load));
    }
    if is_text("begin", line) {
        return Ok(Said::Opens(Opening::Begin));
    }
    if is_text("finish", line) {
        return Ok(Said::Says(Command::Finish));
    }
    if is_text("abandon", line) {
        return Ok(Said::Says(Command::Abandon));
    }
    if is_text("status", line) {
        return Ok(Said::Says(Command::Status));
    }
    if is_text("upgrade", line) {
        return Ok(Said::Says(Command::Upgrade));
    }
    if is_text("audit", line) {
        return Ok(Said::Says(Command::Audit));
    }
    said_with(alloc, line)
}

/// What a line says if it is not one of the one-word commands.
fn said_with(alloc: Global, line: &[u8]) -> Result<Said, Memory>
    ensures said { IfOk result (λ said. said ≡ said_with line.now) }
    ensures fits { IfOk result SaysNoBlock }
{
    if begins(line, b"load ") {
        return Ok(load(after(line, 5)));
    }
    if begins(line, b"slice ") {
        let text = Text::from_bytes(alloc, after(line, 6))?;
        return Ok(Said::Says(Command::Slice(text)));
    }
    if begins(line, b"explain ") {
        let text = Text::from_bytes(alloc, after(line, 8))?;
        return Ok(Said::Says(Command::Explain(text)));
    }
    if begins(line, b"sql ") {
        let text = Text::from_bytes(alloc, after(line, 4))?;
        return Ok(Said::Says(Command::Sql(text)));
    }
    if begins(line, b"rollup ") {
        let text = Text::from_bytes(alloc, after(line, 7))?;
        return Ok(Said::Says(Command::Rollup(text)));
    }
    if begins(line, b"level ") {
        return level(alloc, after(line, 6));
    }
    if begins(line, b"step ") {
        return Ok(Said::Says(step(after(line, 5))));
    }
    if begins(line, b"generate ") {
        return Ok(Said::Says(generate(after(line, 9))));
    }
    Ok(Said::Says(Command::Unknown))
}

/// What `load` with this word says.
fn load(number: &[u8]) -> Said
    ensures said { result ≡ load_in (count_in number.now) }
    ensures fits { SaysNoBlock result }
{
    match read_count(number) {
        None | Some(0) => Said::Says(Command::Unknown),
        Some(number) => Said::Opens(Opening::Numbered(number)),
    }
}

/// What `level` with these words says. There must be two.
fn level(alloc: Global, words: &[u8]) -> Result<Said, Memory>
    ensures said { IfOk result (λ said. said ≡ level_in (before_first is_space words.now) (after_first is_space words.now)) }
    ensures fits { IfOk result SaysNoBlock }
{
    let (name, attr) = cut_at(b' ', words);
    if name.is_empty() || attr.is_empty() || attr.contains(&b' ') {
        return Ok(Said::Says(Command::Unknown));
    }
    let name = Text::from_bytes(alloc, name)?;
    let attr = Text::from_bytes(alloc, attr)?;
    Ok(Said::Opens(Opening::Level { name, attr }))
}

/// The command `step` with this word.
fn step(count: &[u8]) -> Command
    ensures command { result ≡ step_in (count_in count.now) }
    ensures fits { KeepsLimit result }
{
    match read_count(count) {
        None => Command::Unknown,
        Some(count) => Command::Step(count),
    }
}

/// The command `generate` with these words.
fn generate(words: &[u8]) -> Command
    ensures command { result
        ≡ generate_in (count_in (before_first is_space words.now)) (count_in (after_first is_space words.now)) }
    ensures fits { KeepsLimit result }
{
    let (start, rows) = cut_at(b' ', words);
    match (read_count(start), read_count(rows)) {
        (Some(start), Some(rows)) => Command::Generate { start, rows },
        _ => Command::Unknown,
    }
}

/// Whether the line is this text.
fn is_text(text: &str, line: &[u8]) -> bool
    ensures { result ≡ is_text text.now line.now }
{
    let text = text.as_bytes();
    match (line, text) {
        // Most texts differ in their first two bytes, and comparing those is cheaper than a call.
        ([first, second, ..], [one, other, ..]) if first != one || second != other => false,
        _ => line == text,
    }
}

/// Whether the line begins with this word.
#[inline(always)]
fn begins(line: &[u8], word: &[u8]) -> bool
    ensures { result ≡ starts_with nat_eq line.now word.now }
{
    match (line, word) {
        ([first, second, ..], [one, other, ..]) if first != one || second != other => false,
        _ => line.starts_with(word),
    }
}
