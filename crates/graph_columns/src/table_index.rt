//! Where the keys of one table stand.
ghost use Rattle.std.specs.Prelude.{◌≡◌, ◌<◌, ℤ, IfOk, length, position};
ghost use Rattle.std.specs.Ordering.{int_eq};
ghost use Rattle.key_places.specs.Places.{place_of};
ghost use Rattle.graph_columns.specs.Keys.{key_column, keys_of, IsKeyColumn};

use crate::column::key_slice;
use column_types::{Column, NoMemory, Shared};
use key_places::KeyPlaces;
use std::alloc::Global;
use std::marker::Model;

/// Where the keys of a table stand, each found in constant time. Seen as the keys in order. It holds the column of the keys,
/// which it shares.
#[derive(Drop)]
pub struct TableIndex {
    column: Shared<Column>,
    places: KeyPlaces,
}

impl Model for TableIndex {
    ghost use Rattle.std.specs.Prelude.{◌≡◌, ℤ, List, position};
    ghost use Rattle.std.specs.Ordering.{int_eq};
    ghost use Rattle.key_places.specs.Places.{place_of};
    ghost use Rattle.graph_columns.specs.Keys.{keys_of, IsKeyColumn};

    ghost Value = { List ℤ };

    ghost view = { λ i. keys_of i.column };

    ghost invariant = { λ i. IsKeyColumn i.column × ((k : ℤ) → place_of i.places k ≡ position (λ q. int_eq q k) (keys_of i.column)) };
}

/// For each key the first place that has it.
fn first_places(alloc: Global, keys: &[i64]) -> Result<KeyPlaces, NoMemory>
    requires { length keys.now < 4294967296 }
    ensures { IfOk result (λ places. (k : ℤ) → place_of places k ≡ position (λ q. int_eq q k) keys.now) }
{
    let mut places = KeyPlaces::new(alloc);
    for (place, key) in keys.iter().enumerate() {
        places.insert_new(*key, place as u32)?;
    }
    Ok(places)
}

impl TableIndex {
    /// The index of a column of keys. Nothing is hashed where each is one more than the key before.
    pub fn of_column(alloc: Global, column: Shared<Column>) -> Result<TableIndex, NoMemory>
        requires { IsKeyColumn column }
        ensures { IfOk result (λ index. index ≡ keys_of column) }
    {
        let places = first_places(alloc, key_slice(column.get()))?;
        Ok(TableIndex { column, places })
    }

    /// The index of a column of keys whose places are known. Nothing is hashed.
    pub fn of_places(column: Shared<Column>, places: KeyPlaces) -> TableIndex
        requires keys { IsKeyColumn column }
        requires places { (k : ℤ) → place_of places k ≡ position (λ q. int_eq q k) (keys_of column) }
        ensures { result ≡ keys_of column }
    {
        TableIndex { column, places }
    }

    /// The place of the key in its table, the first that has it.
    pub fn find(&self, key: i64) -> Option<u32>
        ensures { result ≡ position (λ q. int_eq q key) self.now }
    {
        self.places.get(key)
    }

    /// One more holder of the column of the keys.
    pub fn share_column(&self) -> Result<Shared<Column>, NoMemory>
        ensures { IfOk result (λ column. column ≡ key_column self.now) }
    {
        self.column.share()
    }
}
