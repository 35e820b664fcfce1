//! The tree of a query, its tokens and its faults.
//!
//! Places are byte places in the query's text, from 0. Contracts see a tree as plain data: a [`Text`](column_types::Text) is
//! the list of its bytes, a list is the list of its items, and a boxed expression is that expression.
#![tactic(auto)]

mod expr;
mod expr_copy;
mod fault;
mod laws;
mod pattern;
mod query;
mod query_copy;
mod same;
mod token;

pub use expr::{Aggregate, Expr, Node, Op};
pub use expr_copy::copy_expr;
pub use fault::PgqlFault;
pub use laws::same_trees_are_equal_without_places;
pub use pattern::{Element, Label, Match, PathStep, Way};
pub use query::{Item, Key, Query};
pub use query_copy::copy_query;
pub use same::is_same_tree;
pub use token::{Token, TokenKind};
