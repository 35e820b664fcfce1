//! Graphs from table files.
ghost use Rattle.std.specs.Prelude.{◌≡◌, ◌≤◌, Ok, IfOk, IfErr, OnOk, length};
ghost use Rattle.table_loader.specs.Fault.{LoadCause};
ghost use Rattle.table_loader.specs.Tables.{put_file as file_put, tables_of};

use crate::LoadFault;
use crate::fault::fault_at;
use crate::put::put_record;
use column_types::{List, NoMemory};
use csv::ByteRecord;
use csv_records::{open_records, take_record};
use graph_config::Config;
use graph_model::Graph;
use graph_schema::Schema;
use std::alloc::Global;

/// The graph of the files of a configuration, one file for each table: those of the vertex tables, then those of the edge
/// tables.
///
/// `Bad` names the first record with a fault, and its first fault, in the order of the first page. `NoMemory` comes where
/// memory ran out. One record is read at a time, and its values go straight into the graph; a file's bytes are let go as soon as
/// its last record is in the graph.
pub fn read_tables(
    alloc: Global,
    config: &Config,
    files: List<List<u8>>,
) -> Result<Graph, LoadFault>
    requires { length files ≡ length config.now.files }
    ensures ok { IfOk result (λ graph. tables_of config.now.schema files ≡ Ok graph) }
    ensures cause { IfErr result (LoadCause (tables_of config.now.schema files)) }
{
    config.sound();
    let mut graph = Graph::empty(alloc, copy_schema(&config.schema)?)?;
    let mut file = 0;
    for bytes in files.into_vec() {
        put_file(alloc, &mut graph, &config.schema, file, bytes.as_slice())?;
        file += 1;
    }
    Ok(graph)
}

fn copy_schema(schema: &Schema) -> Result<Schema, NoMemory>
    ensures { IfOk result (λ copy. copy ≡ schema.now) }
{
    Ok(schema.clone()?)
}

/// Puts the records of a file into the graph.
fn put_file(
    alloc: Global,
    graph: &mut Graph,
    schema: &Schema,
    file: u32,
    bytes: &[u8],
) -> Result<(), LoadFault>
    requires { length schema.now.vertices ≤ 32 }
    ensures ok { OnOk result (file_put schema.now file graph.old bytes.now ≡ Ok graph.new) }
    ensures cause { IfErr result (LoadCause (file_put schema.now file graph.old bytes.now)) }
{
    let mut reader = open_records(alloc, bytes);
    let mut fields = ByteRecord::new(alloc);
    let mut row: u64 = 0;
    'records: loop {
        if !take_record(&mut reader, &mut fields)? {
            return Ok(());
        }
        row += 1;
        if let Err(fault) = put_record(alloc, graph, schema, file, &fields) {
            return Err(fault_at(file, row, fault));
        }
    }
}
