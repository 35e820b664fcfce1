//! Queries.

use crate::{Expr, Match};
use column_types::{List, Text};

/// A query: `SELECT items FROM matches WHERE condition GROUP BY groups HAVING having ORDER BY keys LIMIT limit OFFSET
/// offset`.
#[derive(Drop)]
pub struct Query {
    pub distinct: bool,
    pub items: List<Item>,
    pub matches: List<Match>,
    pub condition: Option<Expr>,
    pub groups: List<Expr>,
    pub having: Option<Expr>,
    pub keys: List<Key>,
    pub limit: Option<i64>,
    pub offset: Option<i64>,
}

/// A selected expression with its alias.
#[derive(Drop)]
pub struct Item {
    pub value: Expr,
    pub alias: Option<Text>,
}

/// A key of `ORDER BY`.
#[derive(Drop)]
pub struct Key {
    pub value: Expr,
    pub descending: bool,
}
