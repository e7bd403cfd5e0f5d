//! The parts of a text: words between spaces, and items between commas.
ghost use Rattle.std.specs.Prelude.{◌≡◌, ◌<◌, IfOk, length};
ghost use Rattle.slice_lang.specs.Parts.{byte_of, before, is_word, is_cut, within, parts_of};

use fact_model::Memory;
use std::alloc::Global;
use std::marker::Model;

/// A part of a text.
#[derive(Debug, Drop)]
pub(crate) struct Part<'a> {
    end: u64,
    text: &'a [u8],
}

impl<'a> Model for Part<'a> {
    ghost use Rattle.std.specs.Prelude.{◌<◌, length};
    ghost use Rattle.slice_lang.specs.Parts.{Part};

    ghost Value = { Part };

    ghost view = { λ part. record { end = part.end; text = part.text.now } };

    ghost invariant = { λ part. length part.text.now < part.end };
}

impl<'a> Part<'a> {
    /// The byte behind it, where the first byte of the whole text is byte 1.
    pub(crate) fn end(&self) -> u64
        ensures end { result ≡ self.now.end }
        ensures behind { length self.now.text < result }
    {
        self.end
    }

    /// Its bytes.
    pub(crate) fn text(&self) -> &'a [u8]
        ensures { result.now ≡ self.now.text }
    {
        self.text
    }

    /// The byte before it, which is 0 for the first part of a text.
    pub(crate) fn before(&self) -> u64
        ensures { result ≡ before self.now }
    {
        byte_of(self.end, self.text) - 1
    }

    /// Whether it is this word.
    pub(crate) fn is_word(&self, word: &[u8]) -> bool
        ensures { result ≡ is_word word.now self.now }
    {
        self.text == word
    }
}

/// The byte at which the rest of a part begins that ends before byte `end`.
pub(crate) fn byte_of(end: u64, rest: &[u8]) -> u64
    requires { length rest.now < end }
    ensures { result ≡ byte_of end rest.now }
{
    end - rest.len() as u64
}

/// The parts between the separators that stand outside quotes, of a text that ends before byte `end`.
pub(crate) fn parts_of<'a>(
    alloc: Global,
    separator: u8,
    end: u64,
    text: &'a [u8],
) -> Result<Vec<Part<'a>>, Memory>
    requires { length text.now < end }
    ensures { IfOk result (λ parts. parts.items ≡ parts_of separator end text.now) }
{
    let mut parts = Vec::new(alloc);
    let mut start = 0;
    let mut quoted = false;
    for at in 0..text.len() {
        if is_cut(separator, quoted, text[at]) {
            parts.push(Part {
                end: byte_of(end, &text[at..]),
                text: &text[start..at],
            })?;
            start = at + 1;
        } else {
            quoted = within(quoted, text[at]);
        }
    }
    parts.push(Part {
        end,
        text: &text[start..],
    })?;
    Ok(parts)
}

/// Whether a part ends at this byte.
fn is_cut(separator: u8, quoted: bool, byte: u8) -> bool
    ensures { result ≡ is_cut separator quoted byte }
{
    byte == separator && !quoted
}

/// Whether what follows a byte is within quotes.
fn within(quoted: bool, byte: u8) -> bool
    ensures { result ≡ within quoted byte }
{
    if byte == b'"' { !quoted } else { quoted }
}
