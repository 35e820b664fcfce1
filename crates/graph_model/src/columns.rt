//! A graph as columns, on its way into a snapshot.
ghost use Rattle.std.specs.Prelude.{◌≡◌, ◌<◌, ◌≤◌, ℕ, length, All, IfOk};
ghost use Rattle.std.specs.List.{zip};
ghost use Rattle.graph_model.specs.Stored.{IsStored, ends_at, pairs_at, seats_at, stored_graph};
ghost use Rattle.graph_model.specs.Parts.{AreEach, AreRanksOf, HasEdgeParts, HasEdgePartsAt, HasFewEnds, HasVertexParts, HaveVertexParts};
ghost use Rattle.graph_model.specs.IntoColumns.{AreColumnsOf};

use crate::EdgeTable;
use crate::ends::Ends;
use crate::parts::TableParts;
use crate::places::{EdgePlaces, places_of_ends};
use crate::table::Table;
use column_types::{EditableColumn, List, NoMemory};
use graph_schema::Schema;
use key_places::KeyPlaces;
use std::alloc::Global;

/// The columns of a graph, table by table.
#[derive(Drop)]
pub struct GraphColumns {
    pub schema: Schema,
    pub vertices: List<VertexColumns>,
    pub edges: List<EdgeColumns>,
}

/// The columns of a vertex table.
#[derive(Drop)]
pub struct VertexColumns {
    pub keys: List<i64>,
    pub values: List<EditableColumn>,
    /// For each key the place of its row.
    pub places: KeyPlaces,
}

/// The columns of an edge table.
#[derive(Drop)]
pub struct EdgeColumns {
    pub keys: List<i64>,
    /// For each edge the place where it starts.
    pub sources: List<i32>,
    /// For each edge the place where it ends.
    pub destinations: List<i32>,
    pub values: List<EditableColumn>,
    /// For each key the place of its row.
    pub places: KeyPlaces,
}

/// The columns of a vertex table.
fn vertex_columns(alloc: Global, table: Table) -> Result<VertexColumns, NoMemory>
    ensures { IfOk result (HasVertexParts table) }
{
    let TableParts {
        keys,
        columns,
        places,
    } = table.into_parts(alloc)?;
    Ok(VertexColumns {
        keys,
        values: columns,
        places,
    })
}

/// The columns of each vertex table.
fn vertex_columns_of(alloc: Global, tables: List<Table>) -> Result<List<VertexColumns>, NoMemory>
    ensures { IfOk result (HaveVertexParts tables) }
{
    let mut columns = List::new(alloc);
    for table in tables.into_vec() {
        columns.push(vertex_columns(alloc, table)?)?;
    }
    Ok(columns)
}

/// The columns of an edge table, by the ranks of the tables where it starts and ends. The list of ends is let go before a row is
/// copied.
fn edge_columns(
    alloc: Global,
    table: Table,
    ends: List<Ends>,
    from: &[i32],
    to: &[i32],
) -> Result<EdgeColumns, NoMemory>
    requires long { length table.seats ≤ length ends }
    requires few { All HasFewEnds (zip table.seats ends) }
    ensures { IfOk result (HasEdgeParts table ends from.now to.now) }
{
    let EdgePlaces {
        sources,
        destinations,
    } = places_of_ends(alloc, &table, ends.as_slice(), from, to)?;
    drop(ends);
    let TableParts {
        keys,
        columns,
        places,
    } = table.into_parts(alloc)?;
    Ok(EdgeColumns {
        keys,
        sources,
        destinations,
        values: columns,
        places,
    })
}

/// The columns of each edge table.
fn edge_columns_of(
    alloc: Global,
    shapes: &[EdgeTable],
    mut edges: List<Table>,
    mut ends: List<List<Ends>>,
    ranks: &[List<i32>],
) -> Result<List<EdgeColumns>, NoMemory>
    requires tables { length edges ≡ length shapes.now }
    requires lists { length ends ≡ length shapes.now }
    requires range { All (λ x. (x.source < length ranks.now) × (x.destination < length ranks.now)) shapes.now }
    requires long { (u : ℕ) → length (seats_at edges u) ≤ length (ends_at ends u) }
    requires few { (u : ℕ) → All HasFewEnds (pairs_at edges ends u) }
    ensures { IfOk result (AreEach (HasEdgePartsAt shapes.now edges ends ranks.now) (length edges)) }
{
    let mut columns = List::new(alloc);
    for shape in shapes {
        let from = ranks[shape.source as usize].as_slice();
        let to = ranks[shape.destination as usize].as_slice();
        let table = edges.remove(0);
        let list = ends.remove(0);
        columns.push(edge_columns(alloc, table, list, from, to)?)?;
    }
    Ok(columns)
}

/// The ranks of the seats of each table.
fn ranks_of_tables(alloc: Global, tables: &[Table]) -> Result<List<List<i32>>, NoMemory>
    ensures { IfOk result (AreRanksOf tables.now) }
{
    let mut ranks = List::new(alloc);
    for table in tables {
        ranks.push(table.ranks(alloc)?)?;
    }
    Ok(ranks)
}

/// The columns of a stored graph.
pub(crate) fn columns_of(
    alloc: Global,
    schema: Schema,
    vertices: List<Table>,
    edges: List<Table>,
    ends: List<List<Ends>>,
) -> Result<GraphColumns, NoMemory>
    requires { IsStored schema vertices edges ends }
    ensures { IfOk result (AreColumnsOf (stored_graph schema vertices edges ends)) }
{
    let ranks = ranks_of_tables(alloc, vertices.as_slice())?;
    let edges = edge_columns_of(alloc, schema.edges(), edges, ends, ranks.as_slice())?;
    drop(ranks);
    let vertices = vertex_columns_of(alloc, vertices)?;
    Ok(GraphColumns {
        schema,
        vertices,
        edges,
    })
}
