//! Cutting a text into tokens.
ghost use Rattle.std.specs.Prelude.{◌≡◌, ◌<◌, IfOk, length};
ghost use Rattle.sql_lang.specs.Tokens.{end_at, placed, tokens_of};

use crate::front::{Front, front_of};
use crate::token::{Token, TokenKind};
use fact_model::{Memory, Text, bytes};
use std::alloc::Global;

/// The end of a text that ends before this byte.
pub(crate) fn end_at(alloc: Global, end: u64) -> Token
    ensures { result ≡ end_at end }
{
    Token {
        byte: end,
        kind: TokenKind::End,
        text: Text::from_vec(Vec::new(alloc)),
    }
}

/// The tokens of a text that ends before byte `end`.
#[tactic(auto, unfolding(crate::specs::Tokens::tokens_of))]
pub(crate) fn tokens_of(alloc: Global, end: u64, text: &[u8]) -> Result<Vec<Token>, Memory>
    requires { length text.now < end }
    ensures { IfOk result (λ tokens. tokens.items ≡ tokens_of end text.now) }
{
    let mut tokens = Vec::new(alloc);
    let mut rest = text;
    while let [byte, more @ ..] = rest {
        if *byte == b' ' {
            rest = more;
        } else {
            let front = front_of(alloc, rest)?;
            let len = front.len;
            tokens.push(placed(end, rest, front))?;
            rest = bytes::after(rest, len);
        }
    }
    Ok(tokens)
}

/// The token at the beginning of `rest`, the last part of a text that ends before byte `end`.
fn placed(end: u64, rest: &[u8], front: Front) -> Token
    requires { length rest.now < end }
    ensures { result ≡ placed end rest.now front }
{
    let Front { kind, text, .. } = front;
    Token {
        byte: end - rest.len() as u64,
        kind,
        text,
    }
}
