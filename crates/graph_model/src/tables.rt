//! Lists of stored tables: where keys sit, and how many rows there are.
ghost use Rattle.std.specs.Prelude.{◌≡◌, ◌+◌, ◌<◌, ◌++◌, ◌∷◌, [], false, length, map, position, slice_set, IfOk, OnOk, OnErr, IsTrue, slice_index_or};
ghost use Rattle.std.specs.List.{list_any};
ghost use Rattle.column_types.specs.Value.{fits_kind};
ghost use Rattle.column_types.specs.declared.kind.Kind.TheVariants as kind;
ghost use Rattle.graph_model.specs.Seats.{Fit, sits, sits_at, seated, vacated, reset};
ghost use Rattle.graph_model.specs.Stored.{table_at, seats_at, key_sits, live_total, live_cells, kinds_of_props};

use crate::table::Table;
use crate::{EdgeTable, Keys, VertexTable};
use column_types::{List, NoMemory, Value};
use std::alloc::Global;

/// A table without rows for each vertex table.
pub(crate) fn vertex_tables(alloc: Global, shapes: &[VertexTable]) -> Result<List<Table>, NoMemory>
    ensures { IfOk result (λ tables. tables ≡ map (λ x. record { kinds = kinds_of_props x.props; seats = [] }) shapes.now) }
{
    let mut tables = List::new(alloc);
    for shape in shapes {
        tables.push(Table::new(alloc, shape.props.as_slice())?)?;
    }
    Ok(tables)
}

/// A table without rows for each edge table.
pub(crate) fn edge_tables(alloc: Global, shapes: &[EdgeTable]) -> Result<List<Table>, NoMemory>
    ensures { IfOk result (λ tables. tables ≡ map (λ x. record { kinds = kinds_of_props x.props; seats = [] }) shapes.now) }
{
    let mut tables = List::new(alloc);
    for shape in shapes {
        tables.push(Table::new(alloc, shape.props.as_slice())?)?;
    }
    Ok(tables)
}

/// How many rows all tables have.
pub(crate) fn count_rows(tables: &[Table]) -> u32
    requires { live_total tables.now < 4294967296 }
    ensures { result ≡ live_total tables.now }
{
    let mut count = 0;
    for table in tables {
        count += table.live();
    }
    count
}

/// How many values the rows of all tables have.
pub(crate) fn count_cells(tables: &[Table]) -> u32
    requires { live_cells tables.now < 4294967296 }
    ensures { result ≡ live_cells tables.now }
{
    let mut count = 0;
    for table in tables {
        count += table.cells();
    }
    count
}

/// Whether no new row of a table can have the key. Under `Whole` it is looked for in each table, of which there are at most 32.
pub(crate) fn is_taken(keys: Keys, tables: &[Table], key: i64, table: u32) -> bool
    ensures { result ≡ key_sits keys key tables.now table }
{
    match keys {
        Keys::Whole => some_has_key(tables, key),
        Keys::PerTable => has_key(tables, table, key),
    }
}

fn some_has_key(tables: &[Table], key: i64) -> bool
    ensures { result ≡ list_any (λ x. list_any (sits key) x.seats) tables.now }
{
    tables.iter().any(|table| table.has(key))
}

/// Whether the key sits in a table. No key does where there is no such table.
pub(crate) fn has_key(tables: &[Table], table: u32, key: i64) -> bool
    ensures { result ≡ list_any (sits key) (seats_at tables.now table) }
{
    match tables.get(table as usize) {
        Some(there) => there.has(key),
        None => false,
    }
}

/// The seat of a key in a table.
pub(crate) fn seat_of(tables: &[Table], table: u32, key: i64) -> Option<u32>
    ensures { result ≡ position (sits key) (seats_at tables.now table) }
{
    match tables.get(table as usize) {
        Some(there) => there.seat_of(key),
        None => None,
    }
}

/// How many seats a table has.
pub(crate) fn seat_count(tables: &[Table], table: u32) -> u32
    requires { table < length tables.now }
    ensures { result ≡ length (seats_at tables.now table) }
{
    tables[table as usize].seats()
}

/// Puts a row in the next seat of a table.
pub(crate) fn push_row(
    tables: &mut List<Table>,
    table: u32,
    key: i64,
    values: List<Value>,
) -> Result<(), NoMemory>
    requires table { table < length tables.old }
    requires new { list_any (sits key) (seats_at tables.old table) ≡ false }
    requires fit { Fit (table_at tables.old table).kinds values }
    ensures ok { OnOk result (tables.new ≡ slice_set tables.old table (record { kinds = (table_at tables.old table).kinds; seats = seated (seats_at tables.old table) key values })) }
    ensures err { OnErr result (tables.new ≡ tables.old) }
{
    tables.as_mut_slice()[table as usize].push(key, values)
}

/// Takes the row out that sits in a seat of a table.
pub(crate) fn remove_row(tables: &mut List<Table>, table: u32, seat: u32) -> Result<(), NoMemory>
    requires table { table < length tables.old }
    requires there { IsTrue (sits_at (seats_at tables.old table) seat) }
    ensures ok { OnOk result (tables.new ≡ slice_set tables.old table (record { kinds = (table_at tables.old table).kinds; seats = vacated (seats_at tables.old table) seat })) }
    ensures err { OnErr result (tables.new ≡ tables.old) }
{
    tables.as_mut_slice()[table as usize].remove(seat)
}

/// Sets a value of the row in a seat of a table.
pub(crate) fn set_value(
    tables: &mut List<Table>,
    table: u32,
    seat: u32,
    prop: u32,
    value: Value,
) -> Result<(), NoMemory>
    requires table { table < length tables.old }
    requires seat { seat < length (seats_at tables.old table) }
    requires prop { prop < length (table_at tables.old table).kinds }
    requires fits { IsTrue (fits_kind (slice_index_or (table_at tables.old table).kinds prop kind.Long) value) }
    ensures ok { OnOk result (tables.new ≡ slice_set tables.old table (record { kinds = (table_at tables.old table).kinds; seats = reset (seats_at tables.old table) seat prop value })) }
    ensures err { OnErr result (tables.new ≡ tables.old) }
{
    tables.as_mut_slice()[table as usize].set(seat, prop, value)
}
