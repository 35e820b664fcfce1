//! The parser of queries: the tree that a text spells, or its first refusal.
//!
//! [`parse`] reads the whole grammar. Its one clause speaks of the grammar alone: `Parses` of `pgql_grammar`, specs/Meaning,
//! says what a text spells and why and where it is refused. The rules of the grammar stand in `pgql_grammar` twice: as
//! languages, which say what is spelled, and as readers that look one piece ahead. The functions of this crate are those
//! readers, rule by rule, and what a reader takes or refuses is proved of its language there.
//!
//! The refusals are, in this order:
//!
//! | number | place |
//! |---|---|
//! | 42 | 65535, where the text is longer than 65,535 bytes |
//! | 40 | the first byte where no token begins |
//! | 42 | the first `(` with more than 64 brackets open, ninth `NOT` in a row or ninth `-` in a row |
//! | 41 | the first token such that the tokens up to it begin no query, or the text's length |
#![tactic(auto)]

mod atoms;
mod clauses;
mod expr;
mod nodes;
mod patterns;
mod rest;
mod sorts;
mod whole;

pub use whole::parse;
