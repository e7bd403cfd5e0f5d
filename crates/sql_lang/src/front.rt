//! The token at the beginning of a text.
ghost use Rattle.std.specs.Prelude.{◌≡◌, ◌<◌, ◌≤◌, ◌+◌, IfOk, length, drop, slice_index, true};
ghost use Rattle.std.specs.List.{prefix_len};
ghost use Rattle.std.specs.Char.{is_ascii_digit};
ghost use Rattle.sql_lang.specs.Tokens.{front, front_of, is_letter, is_word_byte, is_plus_or_minus, begins_mark, begins_whole, word_len, whole_len, sign_len, mark_len, within_quotes, quoted_or_stray};

use crate::quotes::within_quotes;
use crate::token::TokenKind;
use fact_model::{Memory, Text, bytes};
use std::alloc::Global;

/// The token at the beginning of a text, and the number of its bytes there.
#[derive(Debug, Drop)]
pub(crate) struct Front {
    pub(crate) kind: TokenKind,
    pub(crate) text: Text,
    pub(crate) len: usize,
}

/// The token at the beginning of a text that is not empty.
#[tactic(auto, unfolding(crate::specs::Tokens::front_of))]
pub(crate) fn front_of(alloc: Global, text: &[u8]) -> Result<Front, Memory>
    requires { 0 < length text.now }
    ensures token { IfOk result (λ found. found ≡ front_of text.now) }
    ensures some { IfOk result (λ found. 0 < found.len) }
    ensures within { IfOk result (λ found. found.len ≤ length text.now) }
{
    let first = text[0];
    if is_letter(first) {
        return front_bytes(alloc, TokenKind::Word, word_len(text), text);
    }
    if begins_whole(text) {
        return front_bytes(alloc, TokenKind::Whole, whole_len(text), text);
    }
    if first == b'\'' {
        return quoted(alloc, text);
    }
    if begins_mark(first) {
        return front_bytes(alloc, TokenKind::Mark, mark_len(text), text);
    }
    front_bytes(alloc, TokenKind::Stray, 1, text)
}

/// The first `len` bytes as a token.
fn front_bytes(alloc: Global, kind: TokenKind, len: usize, text: &[u8]) -> Result<Front, Memory>
    requires { len ≤ length text.now }
    ensures token { IfOk result (λ found. found ≡ front kind len text.now) }
    ensures len { IfOk result (λ found. found.len ≡ len) }
{
    Ok(Front {
        kind,
        text: Text::from_bytes(alloc, bytes::front(text, len))?,
        len,
    })
}

/// The text in quotes at the beginning; only its quote, if it is not closed.
fn quoted(alloc: Global, text: &[u8]) -> Result<Front, Memory>
    requires { 0 < length text.now }
    ensures token { IfOk result (λ found. found ≡ quoted_or_stray text.now (within_quotes (drop 1 text.now))) }
    ensures some { IfOk result (λ found. 0 < found.len) }
    ensures within { IfOk result (λ found. found.len ≤ length text.now) }
{
    match within_quotes(alloc, bytes::after(text, 1))? {
        Some(closed) => {
            let len = text.len() - closed.behind().len();
            Ok(Front {
                kind: TokenKind::Quoted,
                text: closed.into_text(),
                len,
            })
        }
        None => front_bytes(alloc, TokenKind::Stray, 1, text),
    }
}

fn is_letter(byte: u8) -> bool
    ensures { result ≡ is_letter byte }
{
    byte.is_ascii_lowercase() || byte.is_ascii_uppercase()
}

fn is_word_byte(byte: u8) -> bool
    ensures { result ≡ is_word_byte byte }
{
    is_letter(byte) || byte.is_ascii_digit() || byte == b'_'
}

fn is_plus_or_minus(byte: u8) -> bool
    ensures { result ≡ is_plus_or_minus byte }
{
    byte == b'+' || byte == b'-'
}

/// Whether a mark begins with the byte.
fn begins_mark(byte: u8) -> bool
    ensures { result ≡ begins_mark byte }
{
    byte == b'='
        || byte == b'<'
        || byte == b'>'
        || byte == b','
        || byte == b'('
        || byte == b')'
        || byte == b'*'
}

/// Whether the text begins with a digit, or with a sign and a digit.
fn begins_whole(text: &[u8]) -> bool
    ensures { result ≡ begins_whole text.now }
{
    match text {
        [sign, digit, ..] if is_plus_or_minus(*sign) => digit.is_ascii_digit(),
        [digit, ..] => digit.is_ascii_digit(),
        [] => false,
    }
}

/// The number of bytes at the beginning that may be part of a word.
fn word_len(text: &[u8]) -> usize
    ensures len { result ≡ word_len text.now }
    ensures within { result ≤ length text.now }
    ensures some { is_letter (slice_index text.now 0) ≡ true → 0 < length text.now → 0 < result }
{
    let mut len = 0;
    for byte in text {
        if !is_word_byte(*byte) {
            return len;
        }
        len += 1;
    }
    len
}

/// The number of digits at the beginning.
fn digits_len(text: &[u8]) -> usize
    ensures len { result ≡ prefix_len is_ascii_digit text.now }
    ensures within { result ≤ length text.now }
{
    let mut len = 0;
    for byte in text {
        if !byte.is_ascii_digit() {
            return len;
        }
        len += 1;
    }
    len
}

/// The length in bytes of the number at the beginning.
fn whole_len(text: &[u8]) -> usize
    requires { begins_whole text.now ≡ true }
    ensures len { result ≡ whole_len text.now }
    ensures within { result ≤ length text.now }
    ensures some { 0 < result }
{
    match text {
        [sign, digits @ ..] if is_plus_or_minus(*sign) => 1 + digits_len(digits),
        _ => digits_len(text),
    }
}

/// The length in bytes of the mark at the beginning.
fn mark_len(text: &[u8]) -> usize
    requires { 0 < length text.now }
    ensures len { result ≡ mark_len text.now }
    ensures within { result ≤ length text.now }
    ensures some { 0 < result }
{
    if text.starts_with(b"<=") || text.starts_with(b">=") {
        2
    } else {
        1
    }
}
