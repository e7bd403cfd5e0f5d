//! The names in a text, and what they are the names of.
ghost use Rattle.std.specs.Prelude.{◌≡◌, ◌<◌, ◌≤◌, IfOk, length};
ghost use Rattle.std.specs.List.{prefix_len};
ghost use Rattle.cube_schema.specs.Words.{is_name_byte};
ghost use Rattle.cube_schema.specs.Lawful.{IsSchema};
ghost use Rattle.slice_lang.specs.Reading.{attr_in};
ghost use Rattle.slice_lang.specs.Names.{name_in, behind_name};

use crate::parts::byte_of;
use crate::refusal::SliceRefusal;
use cube_schema::Schema;
use std::marker::Model;

/// An attribute that is named, and what follows its name.
#[derive(Debug, Drop)]
pub(crate) struct Named<'a> {
    attr: u32,
    behind: &'a [u8],
}

impl<'a> Model for Named<'a> {
    ghost use Rattle.slice_lang.specs.Reading.{attr_in};
    ghost use Rattle.slice_lang.specs.Names.{Named};

    ghost Value = { Named };

    ghost view = { λ named. record { attr = named.attr; behind = named.behind.now } };
}

impl<'a> Named<'a> {
    /// The number of the attribute.
    pub(crate) fn attr(&self) -> u32
        ensures { result ≡ self.now.attr }
    {
        self.attr
    }

    /// What follows its name.
    pub(crate) fn behind(&self) -> &'a [u8]
        ensures { result.now ≡ self.now.behind }
    {
        self.behind
    }
}

/// The attribute that is named at the front of a text that ends before byte `end`, and what follows the name.
#[tactic(auto, using(cube_schema::proofs::Few::few_attrs), unfolding(crate::specs::Reading::attr_in))]
pub(crate) fn read_attr<'a>(
    schema: &Schema,
    end: u64,
    text: &'a [u8],
) -> Result<Named<'a>, SliceRefusal>
    requires lawful { IsSchema schema.now }
    requires room { length text.now < end }
    ensures answer { result ≡ attr_in schema.now end text.now }
    ensures shorter { IfOk result (λ named. length named.behind ≤ length text.now) }
{
    let (name, behind) = name_in(text);
    if name.is_empty() {
        return Err(SliceRefusal::Syntax(byte_of(end, text)));
    }
    match schema.attr_named(name) {
        Some(attr) => Ok(Named { attr, behind }),
        None => Err(SliceRefusal::UnknownAttr(byte_of(end, text))),
    }
}

/// The name at the front of a text, and what stands behind it.
pub(crate) fn name_in(text: &[u8]) -> (&[u8], &[u8])
    ensures name { result.0.now ≡ name_in text.now }
    ensures behind { result.1.now ≡ behind_name text.now }
    ensures shorter { length result.1.now ≤ length text.now }
{
    text.split_at(name_len(text))
}

/// How many bytes from the front on may stand in a name.
fn name_len(text: &[u8]) -> usize
    ensures len { result ≡ prefix_len is_name_byte text.now }
    ensures within { result ≤ length text.now }
{
    let mut len = 0;
    for byte in text {
        if !is_name_byte(*byte) {
            return len;
        }
        len += 1;
    }
    len
}

fn is_name_byte(byte: u8) -> bool
    ensures { result ≡ is_name_byte byte }
{
    byte.is_ascii_lowercase() || byte.is_ascii_digit() || byte == b'_'
}
