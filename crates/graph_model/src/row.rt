//! The rows of a graph.
use column_types::{List, Value};

/// A vertex: its key, and a value for each property of its table.
#[derive(Debug, Drop, PartialEq, Eq)]
pub struct VertexRow {
    pub key: i64,
    pub values: List<Value>,
}

/// An edge: its key, the keys of the vertices where it starts and ends, and a value for each property of its table.
#[derive(Debug, Drop, PartialEq, Eq)]
pub struct EdgeRow {
    pub key: i64,
    pub source: i64,
    pub destination: i64,
    pub values: List<Value>,
}
