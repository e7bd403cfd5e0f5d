//! Bytes, statuses and calls as a trial prints them.

use crate::program::Ended;
use site_mem::Call;
use std::alloc::AllocError;

// Prints a byte of a text.
fn push_byte(out: &mut String, byte: u8) -> Result<(), AllocError> {
    if byte == b'\\' || byte < b' ' || b'~' < byte {
        return write!(out, "\\x{byte:02x}");
    }
    out.push(char::from(byte))
}

/// Prints the lines of a text, each as an answer. A last line without a line feed ends with `\`.
pub fn push_lines(out: &mut String, bytes: &[u8]) -> Result<(), AllocError> {
    let mut is_begun = false;
    for byte in bytes {
        if !is_begun {
            out.push_str("> ")?;
        }
        is_begun = *byte != b'\n';
        if is_begun {
            push_byte(out, *byte)?;
        } else {
            out.push('\n')?;
        }
    }
    if is_begun {
        out.push_str("\\\n")?;
    }
    Ok(())
}

/// Prints a text on one line, with a bar between its lines.
pub fn push_joined(out: &mut String, bytes: &[u8]) -> Result<(), AllocError> {
    for byte in bytes.strip_suffix(b"\n").unwrap_or(bytes) {
        if *byte == b'\n' {
            out.push_str(" | ")?;
        } else {
            push_byte(out, *byte)?;
        }
    }
    Ok(())
}

/// Prints how a run ended.
pub fn push_ended(out: &mut String, ended: Ended) -> Result<(), AllocError> {
    match ended {
        Ended::Done => out.push_str("done"),
        Ended::Damaged { file, offset } => write!(out, "damaged file {file} at {offset}"),
        Ended::Early(words) => out.push_str(words),
    }
}

/// Prints how a run ended, and the lines that it output.
pub fn push_ran(out: &mut String, ended: Ended, told: &[u8]) -> Result<(), AllocError> {
    out.push_str("> ")?;
    push_ended(out, ended)?;
    out.push('\n')?;
    push_lines(out, told)
}

/// Prints a call with its number.
pub fn push_call(out: &mut String, number: usize, call: &Call) -> Result<(), AllocError> {
    write!(out, "> {number} ")?;
    match *call {
        Call::Length { file } => writeln!(out, "length {file}"),
        Call::Read { file, at, len } => writeln!(out, "read {file} at {at} length {len}"),
        Call::Write { file, at, len } => writeln!(out, "write {file} at {at} length {len}"),
        Call::Sync => writeln!(out, "sync"),
        Call::Emit { len } => writeln!(out, "tell {len}"),
    }
}

/// Prints a row of bytes that begins at a place.
pub fn push_row(out: &mut String, place: usize, bytes: &[u8]) -> Result<(), AllocError> {
    write!(out, "> {place}:")?;
    for byte in bytes {
        write!(out, " {byte:02x}")?;
    }
    out.push('\n')
}
