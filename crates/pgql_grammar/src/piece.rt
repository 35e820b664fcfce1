//! What the grammar sees of a token.

use column_types::Text;

/// The sort of a token: each keyword and each sign is a sort of its own.
#[derive(Clone, Copy, Debug, PartialEq, Eq)]
pub enum Sym {
    /// The end of the text.
    End,
    /// A word that is no keyword, or a word in double quotes.
    Name,
    Number,
    /// A text that is no date.
    Chars,
    /// A text that is a date.
    Day,
    Select,
    Distinct,
    From,
    Match,
    On,
    Where,
    Group,
    By,
    Having,
    Order,
    Asc,
    Desc,
    Limit,
    Offset,
    As,
    And,
    Or,
    Not,
    Is,
    Null,
    True,
    False,
    In,
    Date,
    Count,
    Min,
    Max,
    Sum,
    /// `(`
    Open,
    /// `)`
    Close,
    /// `[`
    OpenSquare,
    /// `]`
    CloseSquare,
    Comma,
    Dot,
    Colon,
    Bar,
    Equal,
    Unequal,
    Less,
    AtMost,
    Greater,
    AtLeast,
    Plus,
    Minus,
    Star,
    Slash,
    Percent,
    Question,
}

/// A token with its meaning. What its sort has no use for is empty or 0.
#[derive(Drop)]
pub struct Piece {
    pub sym: Sym,
    /// Its first byte in the query's text, counted from 0.
    pub place: u32,
    /// A name without its quotes, a keyword as it is written, or the bytes of a text.
    pub text: Text,
    /// The value of a number.
    pub number: i64,
    /// The day of a text that is a date, counted from 1970-01-01.
    pub day: i32,
}

/// Where an expression stands: by itself, after `NOT`, or after a sign `-`.
#[derive(Clone, Copy, Debug, PartialEq, Eq)]
pub enum Level {
    Whole,
    Negation,
    Minus,
}
