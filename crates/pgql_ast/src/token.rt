//! Tokens of a query text.

/// What a token is.
#[derive(Clone, Copy, Debug, PartialEq, Eq)]
pub enum TokenKind {
    /// A word of the language, in any case.
    Keyword,
    /// A word that is no keyword.
    Word,
    /// A word in double quotes.
    Quoted,
    /// Decimal digits.
    Number,
    /// A text in single quotes.
    Chars,
    Sign,
}

/// A token and its span: the bytes from `from` on, up to and without `to`.
#[derive(Clone, Copy, Debug, PartialEq, Eq)]
pub struct Token {
    pub kind: TokenKind,
    pub from: u32,
    pub to: u32,
}
