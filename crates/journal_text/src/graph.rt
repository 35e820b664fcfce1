//! The text of a graph.
ghost use Rattle.std.specs.Prelude.{◌≡◌, ◌<◌, ◌++◌, IfOk, OnOk, length};
ghost use Rattle.std.specs.List.{flat_map, enumerate_from};
ghost use Rattle.graph_model.specs.Keys.{rows_at};
ghost use Rattle.journal_text.specs.Graphs.{vertex_line, edge_line, ends_of_vertex, by_tables, count_line, text_of};

use crate::number::push_count;
use crate::rows::{push_edge, push_vertex};
use crate::totals::{edge_total, vertex_total};
use crate::vertex_edges::push_two_lines;
use column_types::{NoMemory, Text};
use graph_schema::{EdgeTable, VertexTable};
use graph_snap::{EdgeAt, Snapshot, VertexAt};
use std::alloc::Global;

/// The text of a snapshot's graph: the numbers of its vertices and edges, a line for each vertex and for each edge, and for each
/// vertex the keys of the edges that leave it and of those that enter it, all by positions. Beside the text it takes memory for
/// one row at a time. It takes time in proportion to what is printed, and for each vertex to the number of edge tables.
pub fn graph_text(alloc: Global, on: &Snapshot) -> Result<Text, NoMemory>
    ensures { IfOk result (λ text. text ≡ text_of on.now) }
{
    let mut out = Text::new(alloc);
    push_counts(&mut out, on)?;
    push_vertices(alloc, &mut out, on)?;
    push_edges(alloc, &mut out, on)?;
    push_ends(&mut out, on)?;
    Ok(out)
}

fn push_counts(out: &mut Text, on: &Snapshot) -> Result<(), NoMemory>
    ensures { OnOk result (out.new ≡ out.old ++ count_line on.now) }
{
    let vertices = vertex_total(on);
    let edges = edge_total(on);
    out.push("  ok ")?;
    push_count(out, vertices)?;
    out.push(" ")?;
    push_count(out, edges)?;
    out.push("\n")
}

fn push_vertices(alloc: Global, out: &mut Text, on: &Snapshot) -> Result<(), NoMemory>
    ensures { OnOk result (out.new ≡ out.old ++ by_tables vertex_line on.now.schema.vertices on.now.vertices) }
{
    on.sound();
    for (table, shape) in on.schema().vertices().iter().enumerate() {
        push_vertex_rows(alloc, out, on, table as u32, shape)?;
    }
    Ok(())
}

fn push_vertex_rows(
    alloc: Global,
    out: &mut Text,
    on: &Snapshot,
    table: u32,
    shape: &VertexTable,
) -> Result<(), NoMemory>
    requires { table < length on.now.schema.vertices }
    ensures { OnOk result (out.new ≡ out.old ++ flat_map (vertex_line shape.now) (rows_at on.now.vertices table)) }
{
    on.sound();
    for place in 0..on.vertex_count(table) {
        let row = on.vertex_row(alloc, VertexAt { table, place })?;
        push_vertex(alloc, out, shape, &row)?;
    }
    Ok(())
}

fn push_edges(alloc: Global, out: &mut Text, on: &Snapshot) -> Result<(), NoMemory>
    ensures { OnOk result (out.new ≡ out.old ++ by_tables edge_line on.now.schema.edges on.now.edges) }
{
    on.sound();
    for (table, shape) in on.schema().edges().iter().enumerate() {
        push_edge_rows(alloc, out, on, table as u32, shape)?;
    }
    Ok(())
}

fn push_edge_rows(
    alloc: Global,
    out: &mut Text,
    on: &Snapshot,
    table: u32,
    shape: &EdgeTable,
) -> Result<(), NoMemory>
    requires { table < length on.now.schema.edges }
    ensures { OnOk result (out.new ≡ out.old ++ flat_map (edge_line shape.now) (rows_at on.now.edges table)) }
{
    on.sound();
    for place in 0..on.edge_count(table) {
        let row = on.edge_row(alloc, EdgeAt { table, place })?;
        push_edge(alloc, out, shape, &row)?;
    }
    Ok(())
}

/// Appends for each vertex the lines of the edges at it.
fn push_ends(out: &mut Text, on: &Snapshot) -> Result<(), NoMemory>
    ensures { OnOk result (out.new ≡ out.old ++ by_tables (ends_of_vertex on.now) (enumerate_from 0 on.now.schema.vertices) on.now.vertices) }
{
    on.sound();
    for (table, shape) in on.schema().vertices().iter().enumerate() {
        push_table_ends(out, on, table as u32, shape)?;
    }
    Ok(())
}

fn push_table_ends(
    out: &mut Text,
    on: &Snapshot,
    table: u32,
    shape: &VertexTable,
) -> Result<(), NoMemory>
    requires { table < length on.now.schema.vertices }
    ensures { OnOk result (out.new ≡ out.old ++ flat_map (ends_of_vertex on.now (table, shape.now)) (rows_at on.now.vertices table)) }
{
    for place in 0..on.vertex_count(table) {
        let at = VertexAt { table, place };
        push_two_lines(out, on, at, on.vertex_key(at), shape)?;
    }
    Ok(())
}
