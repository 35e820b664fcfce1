//! Reverse edges, and when there is no room for them.
ghost use Rattle.std.specs.Prelude.{◌≡◌, ◌<◌, ◌≤◌, ◌++◌, pos, ◌+ℤ◌, ◌≤ℤ◌, None, All, IfOk, OnOk, length, fold};
ghost use Rattle.std.specs.Int.{int_max};
ghost use Rattle.std.specs.List.{range_with_len};
ghost use Rattle.graph_model.specs.Keys.{rows_at, value_total};
ghost use Rattle.graph_model.specs.Graph.{vertex_values};
ghost use Rattle.graph_mutate.specs.Taken.{taken};
ghost use Rattle.graph_mutate.specs.EdgeTables.{Tells};
ghost use Rattle.graph_mutate.specs.Undirected.{straight, undirected, greatest_key as greatest, mixed_table as mixed, reverse_total as total, keys_are_spent as spent, is_too_big as too_big, keys_after, last_key};

use crate::edge_lists::{EdgeLists, push_ends};
use column_types::{List, NoMemory};
use graph_snap::Snapshot;
use std::alloc::Global;

/// The most edges of a graph.
const MOST_EDGES: u64 = 4_194_304;

/// The most property cells of a graph.
const MOST_CELLS: u64 = 16_777_216;

/// The first edge table whose end tables differ.
pub(crate) fn mixed_table(base: &Snapshot) -> Option<u32>
    ensures { result ≡ mixed base.now }
{
    base.sound();
    for (table, shape) in base.schema().edges().iter().enumerate() {
        if shape.source != shape.destination {
            return Some(table as u32);
        }
    }
    None
}

/// The greatest of a key and other keys.
fn greatest_of(keys: &[i64], key: i64) -> i64
    ensures { result ≡ fold int_max key keys.now }
{
    let mut greatest = key;
    for other in keys {
        greatest = greatest.max(*other);
    }
    greatest
}

/// The greatest key of all edges; the least LONG where there is no edge.
pub(crate) fn greatest_key(base: &Snapshot) -> i64
    ensures { result ≡ greatest base.now }
{
    base.sound();
    let mut key = i64::MIN;
    for table in 0..base.schema().edges().len() as u32 {
        key = greatest_of(base.edge_keys(table), key);
    }
    key
}

/// How many edges of a table are no loops.
fn straight_count(base: &Snapshot, table: u32) -> u32
    requires mixed { mixed base.now ≡ None }
    requires table { table < length base.now.schema.edges }
    ensures { result ≡ length (straight (rows_at base.now.edges table)) }
{
    base.sound();
    let from = base.source_places(table);
    let to = base.destination_places(table);
    let mut count = 0;
    for place in 0..base.edge_count(table) {
        if from[place as usize] != to[place as usize] {
            count += 1;
        }
    }
    count
}

/// How many reverse edges there are.
fn reverse_total(base: &Snapshot) -> u32
    requires mixed { mixed base.now ≡ None }
    ensures count { result ≡ total base.now }
    ensures few { result ≤ 4194304 }
{
    base.sound();
    let mut count = 0;
    for table in 0..base.schema().edges().len() as u32 {
        count += straight_count(base, table);
    }
    count
}

/// Whether the keys of reverse edges would pass the greatest LONG.
pub(crate) fn keys_are_spent(base: &Snapshot) -> bool
    requires mixed { mixed base.now ≡ None }
    ensures { result ≡ spent base.now }
{
    let reverses = reverse_total(base);
    reverses > 0 && greatest_key(base) > i64::MAX - reverses as i64
}

/// How many values all vertices have.
fn vertex_cells(base: &Snapshot) -> u64
    ensures cells { result ≡ value_total vertex_values base.now.vertices }
    ensures few { result ≤ 16777216 }
{
    base.sound();
    let mut cells = 0;
    for (table, shape) in base.schema().vertices().iter().enumerate() {
        cells += base.vertex_count(table as u32) as u64 * shape.props.len() as u64;
    }
    cells
}

/// Whether the graph would pass the limit of edges or of cells.
pub(crate) fn is_too_big(base: &Snapshot) -> bool
    requires mixed { mixed base.now ≡ None }
    ensures { result ≡ too_big base.now }
{
    base.sound();
    let mut edges = 0;
    let mut cells = vertex_cells(base);
    for (table, shape) in base.schema().edges().iter().enumerate() {
        let count = base.edge_count(table as u32) as u64
            + straight_count(base, table as u32) as u64;
        edges += count;
        cells += count * shape.props.len() as u64;
    }
    edges > MOST_EDGES || cells > MOST_CELLS
}

/// The places of the edges of a table that are no loops.
pub(crate) fn straight_places(
    alloc: Global,
    base: &Snapshot,
    table: u32,
) -> Result<List<u32>, NoMemory>
    requires mixed { mixed base.now ≡ None }
    requires table { table < length base.now.schema.edges }
    ensures taken { IfOk result (λ places. taken (rows_at base.now.edges table) places ≡ straight (rows_at base.now.edges table)) }
    ensures within { IfOk result (λ places. All (λ p. p < length (rows_at base.now.edges table)) places) }
{
    base.sound();
    let sources = base.source_places(table);
    let destinations = base.destination_places(table);
    let mut places = List::new(alloc);
    for place in 0..base.edge_count(table) {
        if sources[place as usize] != destinations[place as usize] {
            places.push(place)?;
        }
    }
    Ok(places)
}

/// Appends so many keys after the last one.
fn push_keys_after(keys: &mut List<i64>, last: i64, count: u32) -> Result<(), NoMemory>
    requires { (last +ℤ pos count) ≤ℤ pos 9223372036854775807 }
    ensures { OnOk result (keys.new ≡ keys.old ++ keys_after last count) }
{
    for i in 0..count {
        keys.push(last + (i as i64 + 1))?;
    }
    Ok(())
}

/// All places below a number.
fn places_below(alloc: Global, count: u32) -> Result<List<u32>, NoMemory>
    ensures { IfOk result (λ places. places ≡ range_with_len 0 count) }
{
    let mut places = List::new(alloc);
    for place in 0..count {
        places.push(place)?;
    }
    Ok(places)
}

/// The edges of a table and behind them the reverse edges of those at the places `single`, with the keys after `last`.
pub(crate) fn with_reverses(
    alloc: Global,
    base: &Snapshot,
    table: u32,
    single: &[u32],
    last: i64,
) -> Result<EdgeLists, NoMemory>
    requires mixed { mixed base.now ≡ None }
    requires table { table < length base.now.schema.edges }
    requires taken { taken (rows_at base.now.edges table) single.now ≡ straight (rows_at base.now.edges table) }
    requires within { All (λ p. p < length (rows_at base.now.edges table)) single.now }
    requires last { last ≡ last_key base.now table }
    requires room { (last +ℤ pos (length single.now)) ≤ℤ pos 9223372036854775807 }
    ensures { IfOk result (Tells base.now (undirected base.now) table) }
{
    base.sound();
    let (from, to) = (base.source_places(table), base.destination_places(table));
    let mut keys = List::from_slice(alloc, base.edge_keys(table))?;
    push_keys_after(&mut keys, last, single.len() as u32)?;
    let mut sources = List::from_slice(alloc, from)?;
    push_ends(&mut sources, to, single)?;
    let mut destinations = List::from_slice(alloc, to)?;
    push_ends(&mut destinations, from, single)?;
    let mut origins = places_below(alloc, base.edge_count(table))?;
    origins.extend_from_slice(single)?;
    Ok(EdgeLists {
        keys,
        sources,
        destinations,
        origins,
    })
}
