//! Vertices by falling degree.
ghost use Rattle.std.specs.Prelude.{◌≡◌, ◌<◌, ◌≤◌, ℤ, IfOk, Some, length, slice_get};
ghost use Rattle.graph_model.specs.Keys.{rows_at};
ghost use Rattle.graph_columns.specs.Keys.{vertex_keys_at};
ghost use Rattle.graph_snap.specs.Reading.{HasVertex};
ghost use Rattle.graph_mutate.specs.Sorted.{degree, row_degree};
ghost use Rattle.graph_mutate.specs.Ranks.{ranks, order_of};

use column_types::{List, NoMemory};
use graph_snap::{Snapshot, VertexAt};
use std::alloc::Global;
use std::cmp::Reverse;

/// A vertex of a table: how many edge ends it is, and its place.
#[derive(Clone, Copy, Debug, PartialEq, Eq)]
pub struct Ranked {
    pub degree: u32,
    pub place: u32,
}

/// How many edge ends a vertex is, out and in, over all edge tables.
fn degree_of(base: &Snapshot, at: VertexAt) -> u32
    requires { HasVertex base.now at }
    ensures { (key : ℤ) → slice_get (vertex_keys_at base.now at.table) at.place ≡ Some key → result ≡ degree base.now at.table key }
{
    base.sound();
    base.schema().sound();
    let mut ends = 0;
    for table in 0..base.schema().edges().len() as u32 {
        ends += base.out_row(at, table).len();
        ends += base.in_row(at, table).len();
    }
    ends as u32
}

/// The vertices of a table with their degrees.
fn with_degrees(alloc: Global, base: &Snapshot, table: u32) -> Result<Vec<Ranked>, NoMemory>
    requires { table < length base.now.schema.vertices }
    ensures { IfOk result (λ made. made.items ≡ ranks (row_degree base.now table) (rows_at base.now.vertices table)) }
{
    let mut made = Vec::new(alloc);
    for place in 0..base.vertex_count(table) {
        let degree = degree_of(base, VertexAt { table, place });
        made.push(Ranked { degree, place })?;
    }
    Ok(made)
}

/// The places of a table's vertices by falling degree, those of one degree in rising order.
pub(crate) fn places_by_degree(
    alloc: Global,
    base: &Snapshot,
    table: u32,
) -> Result<List<u32>, NoMemory>
    requires { table < length base.now.schema.vertices }
    ensures { IfOk result (λ places. places ≡ order_of (row_degree base.now table) (rows_at base.now.vertices table)) }
{
    let mut vertices = with_degrees(alloc, base, table)?;
    vertices.sort_by_key(|vertex| Reverse(vertex.degree))?;
    let mut places = List::new(alloc);
    for vertex in &vertices {
        places.push(vertex.place)?;
    }
    Ok(places)
}
