//! The values in conditions.
ghost use Rattle.std.specs.Prelude.{◌≡◌, ◌<◌, ◌≤◌, ◌+◌, IfOk, IfSome, length, option_map};
ghost use Rattle.std.specs.List.{prefix_len};
ghost use Rattle.slice_lang.specs.Answers.{Answers, judged};
ghost use Rattle.slice_lang.specs.Values.{is_value_byte, written_in, plain_in, plain_rules, as_quoted, within_quotes, coordinate_in, place_of_dots, number_cond, meaning};

use crate::parts::byte_of;
use crate::refusal::SliceRefusal;
use cube_schema::Kind;
use fact_model::{Cond, GREATEST_NUMBER, LONGEST_TEXT, Memory, Text, Value, read_number};
use std::alloc::Global;
use std::marker::Model;

/// A value as it is written.
#[derive(Debug, Drop)]
pub(crate) struct Written<'a> {
    quoted: bool,
    text: Text,
    behind: &'a [u8],
}

impl<'a> Model for Written<'a> {
    ghost use Rattle.slice_lang.specs.Values.{Written};

    ghost Value = { Written };

    ghost view = { λ w. record { quoted = w.quoted; bytes = w.text; behind = w.behind.now } };
}

impl<'a> Written<'a> {
    /// What follows the value.
    pub(crate) fn behind(&self) -> &'a [u8]
        ensures { result.now ≡ self.now.behind }
    {
        self.behind
    }

    /// The condition that an attribute of this kind has this value, or lies in this range, if it may.
    #[tactic(auto, unfolding(crate::specs::Values::meaning))]
    pub(crate) fn meaning(self, kind: Kind, attr: u32) -> Option<Cond>
        ensures { result ≡ meaning kind attr self.entry }
    {
        let Written { quoted, text, .. } = self;
        match kind {
            Kind::Word { .. } if text.as_bytes().len() <= LONGEST_TEXT => Some(Cond::Equal {
                attr,
                value: Value::Word(text),
            }),
            Kind::Number if !quoted => number_cond(attr, text.as_bytes()),
            _ => None,
        }
    }
}

/// The value at the front of a text that ends before byte `end`.
#[tactic(auto, unfolding(crate::specs::Values::written_in))]
pub(crate) fn read_written<'a>(
    alloc: Global,
    end: u64,
    text: &'a [u8],
) -> Result<Written<'a>, SliceRefusal>
    requires { length text.now < end }
    ensures answer { Answers result (written_in end text.now) }
    ensures shorter { IfOk result (λ w. length w.behind ≤ length text.now) }
{
    match text.strip_prefix(b"\"") {
        Some(quoted) => match within_quotes(alloc, quoted)? {
            Some(written) => Ok(written),
            None => Err(SliceRefusal::Syntax(end)),
        },
        None => plain(alloc, end, text),
    }
}

/// The value without quotes at the front of a text.
fn plain<'a>(alloc: Global, end: u64, text: &'a [u8]) -> Result<Written<'a>, SliceRefusal>
    requires { length text.now < end }
    ensures answer { Answers result (judged (plain_in text.now) (plain_rules end text.now)) }
    ensures shorter { IfOk result (λ w. length w.behind ≤ length text.now) }
{
    let (value, behind) = text.split_at(value_len(text));
    if value.is_empty() {
        return Err(SliceRefusal::Syntax(byte_of(end, text)));
    }
    Ok(Written {
        quoted: false,
        text: Text::from_bytes(alloc, value)?,
        behind,
    })
}

/// How many bytes from the front on may stand in a value without quotes.
fn value_len(text: &[u8]) -> usize
    ensures len { result ≡ prefix_len is_value_byte text.now }
    ensures within { result ≤ length text.now }
{
    let mut len = 0;
    for byte in text {
        if !is_value_byte(*byte) {
            return len;
        }
        len += 1;
    }
    len
}

fn is_value_byte(byte: u8) -> bool
    ensures { result ≡ is_value_byte byte }
{
    byte.is_ascii_lowercase()
        || byte.is_ascii_uppercase()
        || byte.is_ascii_digit()
        || byte == b'_'
        || byte == b'.'
        || byte == b'-'
        || byte == b'+'
}

/// The quoted value behind its opening quote, if it is closed.
fn within_quotes(alloc: Global, text: &[u8]) -> Result<Option<Written>, Memory>
    ensures found { IfOk result (λ found. found ≡ option_map as_quoted (within_quotes text.now)) }
    ensures shorter { IfOk result (λ found. IfSome found (λ w. length w.behind ≤ length text.now)) }
{
    let mut bytes = Vec::new(alloc);
    let mut rest = text;
    loop {
        match rest {
            [b'"', b'"', more @ ..] => {
                bytes.push(b'"')?;
                rest = more;
            }
            [b'"', behind @ ..] => {
                let text = Text::from_vec(bytes);
                return Ok(Some(Written {
                    quoted: true,
                    text,
                    behind,
                }));
            }
            [byte, more @ ..] => {
                bytes.push(*byte)?;
                rest = more;
            }
            [] => return Ok(None),
        }
    }
}

/// The condition that a number attribute is a number, or lies between two with the first `..` between them.
#[tactic(auto, unfolding(crate::specs::Values::number_cond))]
fn number_cond(attr: u32, text: &[u8]) -> Option<Cond>
    ensures { result ≡ number_cond attr text.now }
{
    let place = place_of_dots(text);
    if place == text.len() {
        let number = read_coordinate(text)?;
        return Some(Cond::Equal {
            attr,
            value: Value::Number(number),
        });
    }
    let low = read_coordinate(&text[..place])?;
    let high = read_coordinate(&text[place + 2..])?;
    Some(Cond::Between { attr, low, high })
}

/// The place of the first `..`, or the length where there is none.
fn place_of_dots(text: &[u8]) -> usize
    ensures place { result ≡ place_of_dots text.now }
    ensures within { result < length text.now → result + 2 ≤ length text.now }
    ensures most { result ≤ length text.now }
{
    for at in 0..text.len() {
        if text[at..].starts_with(b"..") {
            return at;
        }
    }
    text.len()
}

/// The number that a text writes, if a number attribute may have it.
pub fn read_coordinate(text: &[u8]) -> Option<u64>
    ensures { result ≡ coordinate_in text.now }
{
    match read_number(text) {
        Some(number) if 0 <= number && number <= i128::from(GREATEST_NUMBER) => Some(number as u64),
        _ => None,
    }
}
