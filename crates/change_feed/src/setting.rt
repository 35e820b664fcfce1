//! What a row sets.
use column_types::Value;

/// The value that the property at a place of its table gets, at the row of a key.
#[derive(Debug, Drop)]
pub(crate) struct Setting {
    pub key: i64,
    pub prop: u32,
    pub value: Value,
}
