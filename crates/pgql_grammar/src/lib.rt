//! The grammar of queries, over tokens: what a text spells, and why and where it is refused.
//!
//! This crate has definitions and proofs, and no work of its own. Contracts above cite `Parses` of specs/Meaning. To read its
//! specs in this order:
//!
//! * `Language`: a language says which pieces spell which value. A rule of the grammar is a `do` block, its parts one after
//!   another. `Sorts` has the sorts of pieces.
//! * `Expression` and `Clauses`: the grammar, rule by rule, with the tree that each rule makes.
//! * `Pieces`: what the grammar sees of a token, a [`Piece`] with its sort [`Sym`]. `Limits`: how deep a text may nest.
//! * `Faults`: the first piece such that the pieces up to it begin no word of a language.
//! * `Meaning`: `Spells`, `Refused` and `Parses`.
//! * `Reading`, `ExpressionReader`, `QueryReader`: the same rules as readers that look one piece ahead. The functions of the
//!   parser are these; `Fits` of proofs/Fitting says how a reader fits a language, and proofs/ExpressionFits and
//!   proofs/ClauseFits that each rule does.
//!
//! Expressions nest, so their grammar is defined for each depth, and an expression is one of some depth. The depth is no limit.
#![tactic(auto)]

mod laws;
mod piece;

pub use laws::{keywords_have_sorts, quotes_are_doubled, texts_spell_queries};
pub use piece::{Level, Piece, Sym};
