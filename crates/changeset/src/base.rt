//! What a snapshot tells of keys, by its own indexes.
ghost use Rattle.std.specs.Prelude.{◌≡◌, ◌<◌, ℤ, Some, slice_get, length};
ghost use Rattle.graph_model.specs.Graph.{vertex_total as total_of_vertices, edge_total as total_of_edges, cell_total as total_of_cells, vertex_values, edge_values, vertex_props_at, edge_props_at, source_at, destination_at};
ghost use Rattle.graph_model.specs.Keys.{value_total};
ghost use Rattle.graph_snap.specs.Reading.{HasVertex, vertex_keys_at};
ghost use Rattle.changeset.specs.Facts.{end_count, vertex_fact, edge_fact};

use crate::state::{EdgeState, VertexState};
use graph_schema::Schema;
use graph_snap::{Snapshot, VertexAt};

/// How many ends of edges stand at a vertex.
fn ends_at(base: &Snapshot, at: VertexAt) -> u32
    requires { HasVertex base.now at }
    ensures { (key : ℤ) → slice_get (vertex_keys_at base.now at.table) at.place ≡ Some key → result ≡ end_count base.now.schema at.table key base.now.edges }
{
    base.sound();
    let mut ends = 0;
    for table in 0..base.schema().edges().len() as u32 {
        ends += base.out_row(at, table).len();
        ends += base.in_row(at, table).len();
    }
    ends as u32
}

/// Whether the vertex of a key is there, and how many ends of edges stand at it.
pub(crate) fn vertex_in_base(base: &Snapshot, table: u32, key: i64) -> VertexState
    requires { table < length base.now.schema.vertices }
    ensures { result ≡ vertex_fact base.now table key }
{
    base.sound();
    match base.vertex_in(table, key) {
        Some(at) => VertexState {
            there: true,
            ends: ends_at(base, at),
        },
        None => VertexState {
            there: false,
            ends: 0,
        },
    }
}

/// The ends of the edge of a key, if it is there.
pub(crate) fn edge_in_base(base: &Snapshot, table: u32, key: i64) -> EdgeState
    requires { table < length base.now.schema.edges }
    ensures { result ≡ edge_fact base.now table key }
{
    base.sound();
    match base.edge_in(table, key) {
        Some(at) => {
            let (source, destination) = base.ends(at);
            EdgeState::There {
                source: base.vertex_key(source),
                destination: base.vertex_key(destination),
            }
        }
        None => EdgeState::Gone,
    }
}

/// How many vertices a snapshot has.
pub(crate) fn vertex_total(base: &Snapshot) -> u32
    ensures { result ≡ total_of_vertices base.now }
{
    base.sound();
    let mut total = 0;
    for table in 0..base.schema().vertices().len() as u32 {
        total += base.vertex_count(table);
    }
    total
}

/// How many edges a snapshot has.
pub(crate) fn edge_total(base: &Snapshot) -> u32
    ensures { result ≡ total_of_edges base.now }
{
    base.sound();
    let mut total = 0;
    for table in 0..base.schema().edges().len() as u32 {
        total += base.edge_count(table);
    }
    total
}

/// How many properties a vertex table has.
pub(crate) fn vertex_width(schema: &Schema, table: u32) -> u32
    ensures { result ≡ length (vertex_props_at schema.now table) }
{
    schema.sound();
    match schema.vertices().get(table as usize) {
        Some(shape) => shape.props.len() as u32,
        None => 0,
    }
}

/// How many properties an edge table has.
pub(crate) fn edge_width(schema: &Schema, table: u32) -> u32
    ensures { result ≡ length (edge_props_at schema.now table) }
{
    schema.sound();
    match schema.edges().get(table as usize) {
        Some(shape) => shape.props.len() as u32,
        None => 0,
    }
}

/// How many values the vertices of a snapshot have.
fn vertex_cells(base: &Snapshot) -> u32
    ensures { result ≡ value_total vertex_values base.now.vertices }
{
    base.sound();
    let mut cells = 0;
    for table in 0..base.schema().vertices().len() as u32 {
        cells += vertex_width(base.schema(), table) * base.vertex_count(table);
    }
    cells
}

/// How many values the edges of a snapshot have.
fn edge_cells(base: &Snapshot) -> u32
    ensures { result ≡ value_total edge_values base.now.edges }
{
    base.sound();
    let mut cells = 0;
    for table in 0..base.schema().edges().len() as u32 {
        cells += edge_width(base.schema(), table) * base.edge_count(table);
    }
    cells
}

/// How many values the vertices and edges of a snapshot have.
pub(crate) fn cell_total(base: &Snapshot) -> u32
    ensures { result ≡ total_of_cells base.now }
{
    base.sound();
    vertex_cells(base) + edge_cells(base)
}

/// The vertex table where the edges of a table start.
pub(crate) fn source_table(base: &Snapshot, table: u32) -> u32
    requires { table < length base.now.schema.edges }
    ensures value { result ≡ source_at base.now.schema table }
    ensures within { result < length base.now.schema.vertices }
{
    base.sound();
    base.schema().edges()[table as usize].source
}

/// The vertex table where the edges of a table end.
pub(crate) fn destination_table(base: &Snapshot, table: u32) -> u32
    requires { table < length base.now.schema.edges }
    ensures value { result ≡ destination_at base.now.schema table }
    ensures within { result < length base.now.schema.vertices }
{
    base.sound();
    base.schema().edges()[table as usize].destination
}
