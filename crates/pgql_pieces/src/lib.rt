//! The pieces of a query text: its tokens as the grammar sees them, within the limits on its length and depth.
//!
//! [`pieces_of`] gives each token its sort and its meaning: a keyword or a sign is a sort of its own, a name loses its quotes, a
//! number has its value, a text has each doubled quote once, and a text that is a date has its day. The end of the text is the
//! last piece. `Cuts` of specs/Answer is the contract; what a piece is, and how deep a text may nest, stands in `pgql_grammar`.
#![tactic(auto)]

mod limits;
mod pieces;
mod quotes;
mod words;

pub use pieces::pieces_of;
