//! The bytes that the lines of a block stand for.

use crate::trouble::Trouble;
use crate::words::{Words, number};

/// Appends a line with its line feed, or N such lines if it begins with `\repeat N `. A `\` at its end means no line feed.
pub fn push_line(into: &mut Vec<u8>, line: &str) -> Result<(), Trouble> {
    let Some(rest) = line.strip_prefix("\\repeat ") else {
        return push_one(into, line, 0);
    };
    let mut words = Words::of(rest);
    for index in 0..words.number()? {
        push_one(into, words.rest(), index)?;
    }
    Ok(())
}

fn push_one(into: &mut Vec<u8>, line: &str, index: u64) -> Result<(), Trouble> {
    if let Some(front) = line.strip_suffix('\\') {
        return push_text(into, front, index);
    }
    push_text(into, line, index)?;
    into.push(b'\n')?;
    Ok(())
}

/// Appends the bytes of a text. `\n` and `\r` are a line feed and a carriage return, `\x5c` is the byte 92, `\<9 a>` is nine times
/// the letter a, and `\<+5>` is the index plus five.
pub fn push_text(into: &mut Vec<u8>, text: &str, index: u64) -> Result<(), Trouble> {
    let mut is_escape = false;
    for part in text.split('\\') {
        if is_escape {
            push_escape(into, part, index)?;
        } else {
            into.extend_from_slice(part.as_bytes())?;
        }
        is_escape = true;
    }
    Ok(())
}

// Appends an escape, and the plain text after it.
fn push_escape(into: &mut Vec<u8>, escape: &str, index: u64) -> Result<(), Trouble> {
    let rest = if let Some(rest) = escape.strip_prefix('n') {
        into.push(b'\n')?;
        rest
    } else if let Some(rest) = escape.strip_prefix('r') {
        into.push(b'\r')?;
        rest
    } else if let Some(rest) = escape.strip_prefix('x') {
        push_hex(into, rest)?
    } else {
        let filled = escape.strip_prefix('<').ok_or(Trouble::Unclear)?;
        let (filling, rest) = filled.split_once('>').ok_or(Trouble::Unclear)?;
        push_filling(into, filling, index)?;
        rest
    };
    into.extend_from_slice(rest.as_bytes())?;
    Ok(())
}

// Appends the byte of two hexadecimal digits, and returns the rest of the text.
fn push_hex<'a>(into: &mut Vec<u8>, text: &'a str) -> Result<&'a str, Trouble> {
    let (digits, rest) = text.split_at_checked(2).ok_or(Trouble::Unclear)?;
    match u8::from_str_radix(digits, 16) {
        Ok(byte) => into.push(byte)?,
        Err(_) => return Err(Trouble::Unclear),
    }
    Ok(rest)
}

// Appends a letter a number of times, or, after a `+`, the sum of a number and the index.
fn push_filling(into: &mut Vec<u8>, filling: &str, index: u64) -> Result<(), Trouble> {
    if let Some(first) = filling.strip_prefix('+') {
        let sum = number(first)?.saturating_add(index);
        let text = format!(in *into.allocator(); "{sum}")?;
        into.extend_from_slice(text.as_bytes())?;
        return Ok(());
    }
    let mut words = Words::of(filling);
    let count = words.number()?;
    let letter = *words.rest().as_bytes().first().ok_or(Trouble::Unclear)?;
    for _ in 0..count {
        into.push(letter)?;
    }
    Ok(())
}
