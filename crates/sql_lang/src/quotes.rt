//! Texts in quotes.
ghost use Rattle.std.specs.Prelude.{◌≡◌, ◌≤◌, IfOk, IfSome, length, option_map};
ghost use Rattle.sql_lang.specs.Tokens.{within_quotes};
ghost use Rattle.sql_lang.specs.Closed.{as_closed};
ghost use Rattle.sql_lang.specs.Quoting.{IsBehind, from_next};

use fact_model::{Memory, Text};
use std::alloc::Global;
use std::marker::Model;

/// What is within quotes, and what follows them.
#[derive(Debug, Drop)]
pub(crate) struct Closed<'a> {
    text: Text,
    behind: &'a [u8],
}

impl<'a> Model for Closed<'a> {
    ghost use Rattle.sql_lang.specs.Closed.{Closed};

    ghost Value = { Closed };

    ghost view = { λ c. record { bytes = c.text; behind = c.behind.now } };
}

impl<'a> Closed<'a> {
    /// What follows the closing quote.
    pub(crate) fn behind(&self) -> &'a [u8]
        ensures { result.now ≡ self.now.behind }
    {
        self.behind
    }

    /// What is within the quotes.
    pub(crate) fn into_text(self) -> Text
        ensures { result ≡ self.entry.bytes }
    {
        let Closed { text, .. } = self;
        text
    }
}

/// What comes next within quotes.
#[derive(Clone, Copy)]
pub(crate) enum Within<'a> {
    /// A byte of the text, and what follows it; a doubled quote is one byte.
    Byte(u8, &'a [u8]),
    /// The closing quote, and what follows it.
    Close(&'a [u8]),
    /// Nothing: the text is not closed.
    Nothing,
}

/// What comes next.
fn next_in(text: &[u8]) -> Within<'_>
    ensures next { within_quotes text.now ≡ from_next result }
    ensures shorter { IsBehind result (length text.now) }
{
    match text {
        [b'\'', b'\'', more @ ..] => Within::Byte(b'\'', more),
        [b'\'', behind @ ..] => Within::Close(behind),
        [byte, more @ ..] => Within::Byte(*byte, more),
        [] => Within::Nothing,
    }
}

/// The text from after an opening quote to the closing one, if there is one. A doubled quote closes nothing, and is one quote
/// of the text.
pub(crate) fn within_quotes(alloc: Global, text: &[u8]) -> Result<Option<Closed>, Memory>
    ensures found { IfOk result (λ found. found ≡ option_map as_closed (within_quotes text.now)) }
    ensures shorter { IfOk result (λ found. IfSome found (λ c. length c.behind ≤ length text.now)) }
{
    let mut bytes = Vec::new(alloc);
    let mut rest = text;
    loop {
        match next_in(rest) {
            Within::Byte(byte, more) => {
                bytes.push(byte)?;
                rest = more;
            }
            Within::Close(behind) => {
                let text = Text::from_vec(bytes);
                return Ok(Some(Closed { text, behind }));
            }
            Within::Nothing => return Ok(None),
        }
    }
}
