//! Graphs from the rows of their tables, and the rows of graphs.
ghost use Rattle.std.specs.Prelude.{◌≡◌, ◌≤◌, length, map, IfOk, OnOk};
ghost use Rattle.graph_model.specs.FromRows.{FitEach, edge_put, made, puts, vertex_put};

use crate::{EdgeRow, Graph, VertexRow};
use column_types::{List, NoMemory};
use std::alloc::Global;

/// Puts rows at the end of a vertex table.
fn put_vertex_rows(graph: &mut Graph, table: u32, rows: List<VertexRow>) -> Result<(), NoMemory>
    requires { FitEach graph.old (map (vertex_put table) rows) }
    ensures { OnOk result (graph.new ≡ made graph.old (map (vertex_put table) rows)) }
{
    for row in rows.into_vec() {
        let VertexRow { key, values } = row;
        graph.add_vertex(table, key, values)?;
    }
    Ok(())
}

/// Puts rows at the end of each vertex table.
pub(crate) fn put_vertex_tables(
    graph: &mut Graph,
    tables: List<List<VertexRow>>,
) -> Result<(), NoMemory>
    requires few { length tables ≤ 32 }
    requires fit { FitEach graph.old (puts vertex_put 0 tables) }
    ensures { OnOk result (graph.new ≡ made graph.old (puts vertex_put 0 tables)) }
{
    let mut table = 0;
    for rows in tables.into_vec() {
        put_vertex_rows(graph, table, rows)?;
        table += 1;
    }
    Ok(())
}

/// Puts rows at the end of an edge table.
fn put_edge_rows(graph: &mut Graph, table: u32, rows: List<EdgeRow>) -> Result<(), NoMemory>
    requires { FitEach graph.old (map (edge_put table) rows) }
    ensures { OnOk result (graph.new ≡ made graph.old (map (edge_put table) rows)) }
{
    for row in rows.into_vec() {
        let EdgeRow {
            key,
            source,
            destination,
            values,
        } = row;
        graph.add_edge(table, key, source, destination, values)?;
    }
    Ok(())
}

/// Puts rows at the end of each edge table.
pub(crate) fn put_edge_tables(
    graph: &mut Graph,
    tables: List<List<EdgeRow>>,
) -> Result<(), NoMemory>
    requires few { length tables ≤ 32 }
    requires fit { FitEach graph.old (puts edge_put 0 tables) }
    ensures { OnOk result (graph.new ≡ made graph.old (puts edge_put 0 tables)) }
{
    let mut table = 0;
    for rows in tables.into_vec() {
        put_edge_rows(graph, table, rows)?;
        table += 1;
    }
    Ok(())
}

/// Copies of the rows of each vertex table.
pub(crate) fn copy_vertex_tables(
    alloc: Global,
    graph: &Graph,
) -> Result<List<List<VertexRow>>, NoMemory>
    ensures { IfOk result (λ tables. tables ≡ graph.now.vertices) }
{
    graph.sound();
    let mut tables = List::new(alloc);
    for table in 0..graph.schema().vertices().len() as u32 {
        tables.push(graph.vertex_rows(alloc, table)?)?;
    }
    Ok(tables)
}

/// Copies of the rows of each edge table.
pub(crate) fn copy_edge_tables(
    alloc: Global,
    graph: &Graph,
) -> Result<List<List<EdgeRow>>, NoMemory>
    ensures { IfOk result (λ tables. tables ≡ graph.now.edges) }
{
    graph.sound();
    let mut tables = List::new(alloc);
    for table in 0..graph.schema().edges().len() as u32 {
        tables.push(graph.edge_rows(alloc, table)?)?;
    }
    Ok(tables)
}
