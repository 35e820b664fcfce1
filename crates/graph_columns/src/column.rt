//! Columns of keys.
ghost use Rattle.std.specs.Prelude.{◌≡◌, ◌<◌, length};
ghost use Rattle.graph_columns.specs.Keys.{keys_of, IsKeyColumn};

use column_types::Column;

/// The keys of a column of keys, as they lie in memory.
pub fn key_slice(column: &Column) -> &[i64]
    requires { IsKeyColumn column.now }
    ensures keys { result.now ≡ keys_of column.now }
    ensures few { length result.now < 4294967296 }
{
    let _rows = column.len();
    match column.longs() {
        Some(keys) => keys,
        None => unreachable!(),
    }
}
