//! The rows of a stored table that are still there, as keys, columns and an index.
ghost use Rattle.std.specs.Prelude.{◌≡◌, ◌<◌, ◌≤◌, ◌∷◌, ◌++◌, ◌==◌, ℤ, [], filter, length, map, count_by, All, IsTrue, IfOk, OnOk};
ghost use Rattle.std.specs.List.{list_all};
ghost use Rattle.std.specs.Ordering.{int_eq};
ghost use Rattle.column_types.specs.Column.{IsColumn};
ghost use Rattle.graph_model.specs.Seats.{AreColumns, kinds_of, seats_from, sits};
ghost use Rattle.graph_model.specs.Parts.{ArePartsOf, TellsPlaces, is_kept, kept_places, keys_of, values_of, column_of};

use column_types::{EditableColumn, List, NoMemory, copy_value};
use key_places::KeyPlaces;
use std::alloc::Global;

/// The keys of rows, a column for each property, and for each key the place of its row.
#[derive(Drop)]
pub(crate) struct TableParts {
    pub(crate) keys: List<i64>,
    pub(crate) columns: List<EditableColumn>,
    pub(crate) places: KeyPlaces,
}

/// Whether the row at a place is still there.
fn stays(dead: &[bool], place: u32) -> bool
    ensures { result ≡ is_kept dead.now place }
{
    match dead.get(place as usize) {
        Some(flag) => !*flag,
        None => true,
    }
}

/// Appends the key at a place, where the row is still there.
fn push_key(keys: &[i64], dead: &[bool], place: u32, copy: &mut List<i64>) -> Result<(), NoMemory>
    requires { place < length keys.now }
    ensures { OnOk result (copy.new ≡ copy.old ++ keys_of keys.now (filter (is_kept dead.now) (place ∷ []))) }
{
    if !stays(dead, place) {
        return Ok(());
    }
    copy.push(keys[place as usize])?;
    Ok(())
}

/// The keys of the rows that are still there.
fn kept_keys(alloc: Global, keys: &[i64], dead: &[bool]) -> Result<List<i64>, NoMemory>
    requires { length keys.now < 4294967296 }
    ensures { IfOk result (λ copy. copy ≡ keys_of keys.now (kept_places dead.now (length keys.now))) }
{
    let mut copy = List::new(alloc);
    for place in 0..keys.len() as u32 {
        push_key(keys, dead, place, &mut copy)?;
    }
    Ok(copy)
}

/// Appends the value at a place, where the row is still there.
fn push_value(
    alloc: Global,
    column: &EditableColumn,
    dead: &[bool],
    place: u32,
    copy: &mut EditableColumn,
) -> Result<(), NoMemory>
    requires column { IsColumn column.now }
    requires place { place < length column.now.values }
    requires kind { copy.old.kind ≡ column.now.kind }
    requires room { length copy.old.values < 4294967295 }
    ensures kind { copy.new.kind ≡ copy.old.kind }
    ensures ok { OnOk result (copy.new.values ≡ copy.old.values ++ values_of column.now (filter (is_kept dead.now) (place ∷ []))) }
{
    if !stays(dead, place) {
        return Ok(());
    }
    copy.push(copy_value(alloc, column.get(place))?)?;
    Ok(())
}

/// A column of the first `count` values, of those whose rows are still there.
fn kept_column(
    alloc: Global,
    column: EditableColumn,
    dead: &[bool],
    count: u32,
) -> Result<EditableColumn, NoMemory>
    requires { count ≤ length column.values }
    ensures { IfOk result (λ copy. copy ≡ column_of (kept_places dead.now count) column) }
{
    let rows = column.len();
    prove!(count <= rows);
    let mut copy = EditableColumn::new(alloc, column.kind());
    for place in 0..count {
        push_value(alloc, &column, dead, place, &mut copy)?;
    }
    Ok(copy)
}

/// The same of each column. A column is let go as soon as it is copied.
fn kept_columns(
    alloc: Global,
    columns: List<EditableColumn>,
    dead: &[bool],
    count: u32,
) -> Result<List<EditableColumn>, NoMemory>
    requires { All (λ c. count ≤ length c.values) columns }
    ensures { IfOk result (λ copies. copies ≡ map (column_of (kept_places dead.now count)) columns) }
{
    let mut copies = List::new(alloc);
    for column in columns.into_vec() {
        copies.push(kept_column(alloc, column, dead, count)?)?;
    }
    Ok(copies)
}

/// The place of each key.
fn places_of(alloc: Global, keys: &[i64]) -> Result<KeyPlaces, NoMemory>
    requires few { length keys.now < 4294967296 }
    requires once { (k : ℤ) → count_by (int_eq k) keys.now ≤ 1 }
    ensures { IfOk result (λ places. TellsPlaces keys.now places) }
{
    let mut places = KeyPlaces::new(alloc);
    for place in 0..keys.len() as u32 {
        places.insert(keys[place as usize], place)?;
    }
    Ok(places)
}

/// The parts of a table, the rows copied that are still there.
pub(crate) fn copied_parts(
    alloc: Global,
    keys: List<i64>,
    columns: List<EditableColumn>,
    dead: Vec<bool>,
) -> Result<TableParts, NoMemory>
    requires laid { AreColumns keys columns dead.items }
    requires once { (k : ℤ) → count_by (sits k) (seats_from keys columns dead.items) ≤ 1 }
    ensures { IfOk result (ArePartsOf (record { kinds = kinds_of columns; seats = seats_from keys columns dead.items })) }
{
    let count = keys.len() as u32;
    let columns = kept_columns(alloc, columns, dead.as_slice(), count)?;
    let keys = kept_keys(alloc, keys.as_slice(), dead.as_slice())?;
    let places = places_of(alloc, keys.as_slice())?;
    Ok(TableParts {
        keys,
        columns,
        places,
    })
}

/// Whether each column has so many values.
pub(crate) fn are_as_long(columns: &[EditableColumn], count: usize) -> bool
    ensures { result ≡ list_all (λ c. length c.values == count) columns.now }
{
    columns.iter().all(|column| column.len() as usize == count)
}
