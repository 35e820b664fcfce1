//! The one source of the cases.
use catalogue::SourceData;
use column_types::{List, NoMemory, Shared, Steps, Text};
use graph_model::Graph;
use graph_schema::{EdgeTable, Keys, Schema, VertexTable, all_named, ends_exist};
use graph_snap::Snapshot;
use std::alloc::Global;
use std::sync::ledger::Ledger;

/// The graph without rows of a vertex table `V` and an edge table `E`, which have six columns. None where this is no schema.
pub fn graph_of_six(alloc: Global) -> Result<Option<Graph>, NoMemory> {
    let vertices = vertex_tables(alloc)?;
    let edges = edge_tables(alloc)?;
    if !all_named(vertices.as_slice(), edges.as_slice())
        || !ends_exist(vertices.as_slice(), edges.as_slice())
    {
        return Ok(None);
    }
    match Schema::new(alloc, Keys::Whole, vertices, edges) {
        Ok(schema) => Ok(Some(Graph::empty(alloc, schema)?)),
        Err(_) => Ok(None),
    }
}

fn vertex_tables(alloc: Global) -> Result<List<VertexTable>, NoMemory> {
    let table = VertexTable {
        name: Text::from_str(alloc, "V")?,
        props: List::new(alloc),
    };
    let mut tables = List::new(alloc);
    tables.push(table)?;
    Ok(tables)
}

fn edge_tables(alloc: Global) -> Result<List<EdgeTable>, NoMemory> {
    let table = EdgeTable {
        name: Text::from_str(alloc, "E")?,
        source: 0,
        destination: 0,
        props: List::new(alloc),
    };
    let mut tables = List::new(alloc);
    tables.push(table)?;
    Ok(tables)
}

/// The source `s`, with this opening graph and no changes.
pub fn source_of<L: Ledger>(
    alloc: Global,
    graph: &Graph,
    steps: &mut Steps<L>,
) -> Result<Shared<SourceData>, NoMemory> {
    let source = SourceData {
        name: Text::from_str(alloc, "s")?,
        opening: Snapshot::build(alloc, graph, steps)?,
        changes: List::new(alloc),
    };
    Shared::new(alloc, source)
}
