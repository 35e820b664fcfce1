//! Records put into a graph.
ghost use Rattle.std.specs.Prelude.{◌≡◌, ◌+◌, ◌≤◌, Ok, OnOk, IfErr, length};
ghost use Rattle.csv.specs.Records.{fields_of};
ghost use Rattle.table_loader.specs.Fault.{RecordCause};
ghost use Rattle.table_loader.specs.Put.{put_read};
ghost use Rattle.table_loader.specs.Tables.{vertex_change, edge_change, file_change};

use crate::fault::RecordFault;
use crate::record::{read_edge, read_vertex};
use csv::ByteRecord;
use graph_model::{EdgeRow, Graph, VertexRow};
use graph_schema::{Prop, Schema};
use std::alloc::Global;

/// Puts the vertex of a record at the end of a table with these properties.
#[tactic(auto, unfolding(crate::specs::Tables::vertex_change))]
fn put_vertex(
    alloc: Global,
    graph: &mut Graph,
    table: u32,
    props: &[Prop],
    fields: &ByteRecord,
) -> Result<(), RecordFault>
    ensures ok { OnOk result (put_read (vertex_change table props.now (fields_of fields.now)) graph.old ≡ Ok graph.new) }
    ensures cause { IfErr result (RecordCause (put_read (vertex_change table props.now (fields_of fields.now)) graph.old)) }
{
    let VertexRow { key, values } = read_vertex(alloc, props, fields)?;
    graph.insert_vertex(table, key, values)?;
    Ok(())
}

/// Puts the edge of a record at the end of a table with these properties.
#[tactic(auto, unfolding(crate::specs::Tables::edge_change))]
fn put_edge(
    alloc: Global,
    graph: &mut Graph,
    table: u32,
    props: &[Prop],
    fields: &ByteRecord,
) -> Result<(), RecordFault>
    ensures ok { OnOk result (put_read (edge_change table props.now (fields_of fields.now)) graph.old ≡ Ok graph.new) }
    ensures cause { IfErr result (RecordCause (put_read (edge_change table props.now (fields_of fields.now)) graph.old)) }
{
    let EdgeRow {
        key,
        source,
        destination,
        values,
    } = read_edge(alloc, props, fields)?;
    graph.insert_edge(table, key, source, destination, values)?;
    Ok(())
}

/// Puts the row of a record of the file at a place at the end of the file's table.
#[tactic(auto, unfolding(crate::specs::Tables::file_change))]
pub(crate) fn put_record(
    alloc: Global,
    graph: &mut Graph,
    schema: &Schema,
    file: u32,
    fields: &ByteRecord,
) -> Result<(), RecordFault>
    requires { length schema.now.vertices ≤ 32 }
    ensures ok { OnOk result (put_read (file_change schema.now file (fields_of fields.now)) graph.old ≡ Ok graph.new) }
    ensures cause { IfErr result (RecordCause (put_read (file_change schema.now file (fields_of fields.now)) graph.old)) }
{
    if let Some(table) = schema.vertices().get(file as usize) {
        return put_vertex(alloc, graph, file, table.props.as_slice(), fields);
    }
    let place = file - schema.vertices().len() as u32;
    match schema.edges().get(place as usize) {
        Some(table) => put_edge(alloc, graph, place, table.props.as_slice(), fields),
        None => put_edge(alloc, graph, place, &[], fields),
    }
}
