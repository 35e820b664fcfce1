//! Graphs from the lines of inline sources.
ghost use Rattle.std.specs.Prelude.{◌≡◌, Ok, IfOk, IfErr, OnOk};
ghost use Rattle.table_loader.specs.Fault.{LoadCause, RecordCause};
ghost use Rattle.table_loader.specs.Put.{put_read};
ghost use Rattle.table_loader.specs.Inline.{inline_schema as schema_of_lines, inline_of, vertex_line, edge_line, put_vertices as vertices_put, put_edges as edges_put};

use crate::LoadFault;
use crate::fault::{RecordFault, fault_at};
use column_types::{List, NoMemory, Text};
use graph_model::Graph;
use graph_schema::{EdgeTable, Keys, Schema, SchemaFault, VertexTable};
use std::alloc::Global;

/// The graph of an inline source: a vertex table `V` with a row for each key, and an edge table `E` from V to V with a row for
/// each key, source and destination.
///
/// `Bad` names the first line with a fault: file 0 has the vertices and file 1 the edges, and the lines of each count from 1.
/// The fault is 11, 12 or 13. `NoMemory` comes where memory ran out.
pub fn read_inline(
    alloc: Global,
    vertices: &[i64],
    edges: &[(i64, i64, i64)],
) -> Result<Graph, LoadFault>
    ensures ok { IfOk result (λ graph. inline_of vertices.now edges.now ≡ Ok graph) }
    ensures cause { IfErr result (LoadCause (inline_of vertices.now edges.now)) }
{
    let mut graph = Graph::empty(alloc, inline_schema(alloc)?)?;
    put_vertices(alloc, &mut graph, vertices)?;
    put_edges(alloc, &mut graph, edges)?;
    Ok(graph)
}

fn inline_schema(alloc: Global) -> Result<Schema, NoMemory>
    ensures { IfOk result (λ schema. schema ≡ schema_of_lines) }
{
    let mut vertices = List::new(alloc);
    vertices.push(VertexTable {
        name: Text::from_str(alloc, "V")?,
        props: List::new(alloc),
    })?;
    let mut edges = List::new(alloc);
    edges.push(EdgeTable {
        name: Text::from_str(alloc, "E")?,
        source: 0,
        destination: 0,
        props: List::new(alloc),
    })?;
    match Schema::new(alloc, Keys::Whole, vertices, edges) {
        Ok(schema) => Ok(schema),
        Err(SchemaFault::NoMemory) => Err(NoMemory),
        Err(SchemaFault::At { .. }) => unreachable!(),
    }
}

fn put_vertices(alloc: Global, graph: &mut Graph, keys: &[i64]) -> Result<(), LoadFault>
    ensures ok { OnOk result (vertices_put 1 graph.old keys.now ≡ Ok graph.new) }
    ensures cause { IfErr result (LoadCause (vertices_put 1 graph.old keys.now)) }
{
    for (place, key) in keys.iter().enumerate() {
        if let Err(fault) = put_vertex(alloc, graph, key) {
            return Err(fault_at(0, place as u64 + 1, fault));
        }
    }
    Ok(())
}

fn put_edges(alloc: Global, graph: &mut Graph, edges: &[(i64, i64, i64)]) -> Result<(), LoadFault>
    ensures ok { OnOk result (edges_put 1 graph.old edges.now ≡ Ok graph.new) }
    ensures cause { IfErr result (LoadCause (edges_put 1 graph.old edges.now)) }
{
    for (place, edge) in edges.iter().enumerate() {
        if let Err(fault) = put_edge(alloc, graph, edge) {
            return Err(fault_at(1, place as u64 + 1, fault));
        }
    }
    Ok(())
}

fn put_vertex(alloc: Global, graph: &mut Graph, key: &i64) -> Result<(), RecordFault>
    ensures ok { OnOk result (put_read (vertex_line key.now) graph.old ≡ Ok graph.new) }
    ensures cause { IfErr result (RecordCause (put_read (vertex_line key.now) graph.old)) }
{
    graph.insert_vertex(0, *key, List::new(alloc))?;
    Ok(())
}

fn put_edge(alloc: Global, graph: &mut Graph, edge: &(i64, i64, i64)) -> Result<(), RecordFault>
    ensures ok { OnOk result (put_read (edge_line edge.now) graph.old ≡ Ok graph.new) }
    ensures cause { IfErr result (RecordCause (put_read (edge_line edge.now) graph.old)) }
{
    graph.insert_edge(0, edge.0, edge.1, edge.2, List::new(alloc))?;
    Ok(())
}
