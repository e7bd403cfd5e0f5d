//! The tokens of a text.
ghost use Rattle.std.specs.Prelude.{◌≡◌};
ghost use Rattle.std.specs.List.{list_any};
ghost use Rattle.std.specs.Str.{str_eq_ignore_ascii_case};
ghost use Rattle.sql_lang.specs.Tokens.{is_word, is_mark, is_name, is_keyword, is_quoted, is_whole, is_end};

use fact_model::Text;

/// The words that cannot be names, in upper or lower case.
pub(crate) const KEYWORDS: [&[u8]; 12] = [
    b"SELECT", b"COUNT", b"SUM", b"MIN", b"MAX", b"FROM", b"WHERE", b"AND", b"BETWEEN", b"IN",
    b"GROUP", b"BY",
];

/// The kind of a token.
#[derive(Clone, Copy, Debug, PartialEq, Eq)]
pub(crate) enum TokenKind {
    /// A letter, then letters, digits and `_`.
    Word,
    /// Digits, with or without a sign before them.
    Whole,
    /// A text in quotes.
    Quoted,
    /// A mark of the language, such as `<=` or `(`.
    Mark,
    /// A byte that begins no token, or the quote of a text that is not closed.
    Stray,
    /// The end of the text.
    End,
}

/// A token, and where it begins.
#[derive(Debug, Drop)]
pub(crate) struct Token {
    /// Its first byte, where the first byte of the text is byte 1.
    pub(crate) byte: u64,
    /// Its kind.
    pub(crate) kind: TokenKind,
    /// Its bytes; for a text in quotes, the text.
    pub(crate) text: Text,
}

impl Token {
    /// Whether it is this word, in upper or lower case.
    pub(crate) fn is_word(&self, word: &[u8]) -> bool
        ensures { result ≡ is_word word.now self.now }
    {
        match self.kind {
            TokenKind::Word => word.eq_ignore_ascii_case(self.text.as_bytes()),
            _ => false,
        }
    }

    /// Whether it is this mark.
    pub(crate) fn is_mark(&self, mark: &[u8]) -> bool
        ensures { result ≡ is_mark mark.now self.now }
    {
        match self.kind {
            TokenKind::Mark => self.text.as_bytes() == mark,
            _ => false,
        }
    }

    /// Whether it is a word that may be a name.
    pub(crate) fn is_name(&self) -> bool
        ensures { result ≡ is_name self.now }
    {
        match self.kind {
            TokenKind::Word => !is_keyword(self.text.as_bytes()),
            _ => false,
        }
    }

    /// Whether it is a text in quotes.
    pub(crate) fn is_quoted(&self) -> bool
        ensures { result ≡ is_quoted self.now }
    {
        match self.kind {
            TokenKind::Quoted => true,
            _ => false,
        }
    }

    /// Whether it is a whole number.
    pub(crate) fn is_whole(&self) -> bool
        ensures { result ≡ is_whole self.now }
    {
        match self.kind {
            TokenKind::Whole => true,
            _ => false,
        }
    }

    /// Whether it is the end of the text.
    pub(crate) fn is_end(&self) -> bool
        ensures { result ≡ is_end self.now }
    {
        match self.kind {
            TokenKind::End => true,
            _ => false,
        }
    }
}

/// Whether the word cannot be a name.
#[tactic(auto, unfolding(crate::specs::Tokens::is_keyword))]
fn is_keyword(text: &[u8]) -> bool
    ensures { result ≡ is_keyword text.now }
{
    is_among(&KEYWORDS, text)
}

/// Whether the word is one of these, in upper or lower case.
fn is_among(words: &[&[u8]], text: &[u8]) -> bool
    ensures { result ≡ list_any (λ word. str_eq_ignore_ascii_case word.now text.now) words.now }
{
    words.iter().any(|word| word.eq_ignore_ascii_case(text))
}
