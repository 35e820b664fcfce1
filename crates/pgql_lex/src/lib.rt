//! The tokens of a query text, with their spans.
//!
//! | kind | what it is |
//! |---|---|
//! | Keyword, Word | a letter or `_`, then letters, digits and `_`, at most 64 bytes; a keyword in any case |
//! | Quoted | such a word in double quotes, also one that is a keyword |
//! | Number | decimal digits up to 9223372036854775807, without a letter or `_` behind |
//! | Chars | a text in single quotes, in which a quote is doubled |
//! | Sign | `( ) [ ] , . : \| = <> < <= > >= + - * / % ?`, the longest first |
//!
//! Letters and digits are those of ASCII. Space, tab, carriage return and line feed are white space. A word and a number
//! take all the bytes that they can; where it is then too long or too great, no token begins.
//!
//! `specs/Spelling.antt` says what a token is and `specs/Standing.antt` where tokens stand in a text; `specs/Tokens.antt` computes
//! them, and the functions of `laws.rt` tie both.
#![tactic(auto)]

mod bytes;
mod front;
mod laws;
mod scan;
mod words;

pub use laws::{
    a_fault_is_where_no_token_begins, a_token_is_what_is_spelled,
    tokens_and_white_space_are_the_text,
};
pub use scan::lex;
pub use words::{KEYWORDS, is_keyword};
