//! The graph of a source, from the lines of the script or from files.
ghost use Rattle.std.specs.Prelude.{◌≡◌, ◌≤◌, ◌++◌, [], length, slice_get, unwrap_or, Ok, IfOk, IfErr, IfSome};
ghost use Rattle.pgx_io.specs.Files.{KeepsFiles};
ghost use Rattle.source_open.specs.Opening.{file_got, files_got, config_read, tables_read, config_graph, file_graph, lines_graph, source_graph, IsOfLines, inline_files as files_of_lines, table_fault as fault_named, ReadCause, OpenCause};
ghost use Rattle.table_loader.specs.Inline.{inline_of};

use crate::SourceFault;
use column_types::{List, NoMemory, Text};
use graph_config::{Config, ConfigFault, read_config};
use graph_model::Graph;
use pgx_io::{GetFault, Library};
use script_read::{SourceForm, SourceText};
use std::alloc::Global;
use table_loader::{LoadFault, read_inline, read_tables};

/// The graph of a source.
pub(crate) fn read_source_graph<L: Library>(
    alloc: Global,
    source: &SourceText,
    lib: &mut L,
) -> Result<Graph, SourceFault>
    ensures ok { IfOk result (λ graph. IfSome (L.seen lib.old).files (λ files. source_graph files source.now ≡ Ok graph)) }
    ensures cause { IfErr result (OpenCause (L.seen lib.old) (L.seen lib.new) (λ files. source_graph files source.now)) }
    ensures inline { IfOk result (λ graph. IsOfLines source.now.form graph) }
    ensures same { KeepsFiles (L.seen lib.old).files (L.seen lib.new).files }
    ensures later { (L.seen lib.old).faults ≤ (L.seen lib.new).faults }
{
    match &source.form {
        SourceForm::Inline { vertices, edges } => read_lines(
            alloc,
            source.name.as_str(),
            vertices.as_slice(),
            edges.as_slice(),
        ),
        SourceForm::Files { config, .. } => read_files(alloc, config.as_str(), lib),
    }
}

/// The graph in the lines of an inline source of this name.
fn read_lines(
    alloc: Global,
    name: &str,
    vertices: &[i64],
    edges: &[(i64, i64, i64)],
) -> Result<Graph, SourceFault>
    ensures ok { IfOk result (λ graph. lines_graph name.now vertices.now edges.now ≡ Ok graph) }
    ensures inline { IfOk result (λ graph. inline_of vertices.now edges.now ≡ Ok graph) }
    ensures cause { IfErr result (ReadCause (lines_graph name.now vertices.now edges.now)) }
{
    match read_inline(alloc, vertices, edges) {
        Ok(graph) => Ok(graph),
        Err(fault) => {
            let names = inline_files(alloc, name)?;
            Err(table_fault(alloc, names.as_slice(), fault)?)
        }
    }
}

/// The graph of the configuration in the file of this name.
fn read_files<L: Library>(alloc: Global, name: &str, lib: &mut L) -> Result<Graph, SourceFault>
    ensures ok { IfOk result (λ graph. IfSome (L.seen lib.old).files (λ files. file_graph files name.now ≡ Ok graph)) }
    ensures cause { IfErr result (OpenCause (L.seen lib.old) (L.seen lib.new) (λ files. file_graph files name.now)) }
    ensures same { KeepsFiles (L.seen lib.old).files (L.seen lib.new).files }
    ensures later { (L.seen lib.old).faults ≤ (L.seen lib.new).faults }
{
    let bytes = get_file(alloc, name, lib)?;
    let config = read_config_file(alloc, name, bytes)?;
    let graph = read_config_tables(alloc, &config, lib)?;
    Ok(graph)
}

/// The configuration in the file of this name with these bytes.
fn read_config_file(alloc: Global, name: &str, bytes: List<u8>) -> Result<Config, SourceFault>
    ensures ok { IfOk result (λ config. config_read name.now bytes ≡ Ok config) }
    ensures cause { IfErr result (ReadCause (config_read name.now bytes)) }
{
    match read_config(alloc, bytes.as_slice()) {
        Ok(config) => Ok(config),
        Err(ConfigFault::At { number, path }) => Err(SourceFault::BadConfig {
            file: Text::from_str(alloc, name)?,
            fault: ConfigFault::At { number, path },
        }),
        Err(ConfigFault::NoMemory) => Err(SourceFault::NoMemory),
    }
}

/// The graph of a configuration: all its files are got, and then they are read.
fn read_config_tables<L: Library>(
    alloc: Global,
    config: &Config,
    lib: &mut L,
) -> Result<Graph, SourceFault>
    ensures ok { IfOk result (λ graph. IfSome (L.seen lib.old).files (λ files. config_graph files config.now ≡ Ok graph)) }
    ensures cause { IfErr result (OpenCause (L.seen lib.old) (L.seen lib.new) (λ files. config_graph files config.now)) }
    ensures same { KeepsFiles (L.seen lib.old).files (L.seen lib.new).files }
    ensures later { (L.seen lib.old).faults ≤ (L.seen lib.new).faults }
{
    let tables = get_files(alloc, config.files.as_slice(), lib)?;
    let graph = read_table_files(alloc, config, tables)?;
    Ok(graph)
}

/// The graph in these files of a configuration. The bytes of each are let go as soon as they were read.
fn read_table_files(
    alloc: Global,
    config: &Config,
    tables: List<List<u8>>,
) -> Result<Graph, SourceFault>
    requires one_each { length tables ≡ length config.now.files }
    ensures ok { IfOk result (λ graph. tables_read config.now tables ≡ Ok graph) }
    ensures cause { IfErr result (ReadCause (tables_read config.now tables)) }
{
    match read_tables(alloc, config, tables) {
        Ok(graph) => Ok(graph),
        Err(fault) => Err(table_fault(alloc, config.files.as_slice(), fault)?),
    }
}

/// The bytes of the files of these names in their order.
fn get_files<L: Library>(
    alloc: Global,
    names: &[Text],
    lib: &mut L,
) -> Result<List<List<u8>>, SourceFault>
    ensures ok { IfOk result (λ tables. IfSome (L.seen lib.old).files (λ files. files_got files names.now ≡ Ok tables)) }
    ensures one_each { IfOk result (λ tables. length tables ≡ length names.now) }
    ensures cause { IfErr result (OpenCause (L.seen lib.old) (L.seen lib.new) (λ files. files_got files names.now)) }
    ensures same { KeepsFiles (L.seen lib.old).files (L.seen lib.new).files }
    ensures later { (L.seen lib.old).faults ≤ (L.seen lib.new).faults }
{
    let mut tables = List::new(alloc);
    for name in names {
        let bytes = get_file(alloc, name.as_str(), lib)?;
        tables.push(bytes)?;
    }
    Ok(tables)
}

/// The bytes of the file of this name.
fn get_file<L: Library>(alloc: Global, name: &str, lib: &mut L) -> Result<List<u8>, SourceFault>
    ensures ok { IfOk result (λ bytes. IfSome (L.seen lib.old).files (λ files. file_got files name.now ≡ Ok bytes)) }
    ensures cause { IfErr result (OpenCause (L.seen lib.old) (L.seen lib.new) (λ files. file_got files name.now)) }
    ensures same { KeepsFiles (L.seen lib.old).files (L.seen lib.new).files }
    ensures later { (L.seen lib.old).faults ≤ (L.seen lib.new).faults }
{
    match lib.get(alloc, name) {
        Ok(Some(bytes)) => Ok(bytes),
        Ok(None) => Err(SourceFault::NoFile {
            name: Text::from_str(alloc, name)?,
        }),
        Err(GetFault::Failed) => Err(SourceFault::ReadFault),
        Err(GetFault::NoMemory) => Err(SourceFault::NoMemory),
    }
}

/// The names of the files whose records the lines of an inline source are.
fn inline_files(alloc: Global, name: &str) -> Result<List<Text>, NoMemory>
    ensures { IfOk result (λ names. names ≡ files_of_lines name.now) }
{
    let mut names = List::new(alloc);
    names.push(suffixed(alloc, name, ".V")?)?;
    names.push(suffixed(alloc, name, ".E")?)?;
    Ok(names)
}

fn suffixed(alloc: Global, name: &str, suffix: &str) -> Result<Text, NoMemory>
    ensures { IfOk result (λ text. text ≡ name.now ++ suffix.now) }
{
    let mut text = Text::from_str(alloc, name)?;
    text.push(suffix)?;
    Ok(text)
}

/// A fault in the records of the files of these names, told with the name of its file.
fn table_fault(alloc: Global, names: &[Text], fault: LoadFault) -> Result<SourceFault, NoMemory>
    ensures { IfOk result (λ told. told ≡ fault_named names.now fault) }
{
    match fault {
        LoadFault::Bad { file, row, number } => Ok(SourceFault::BadTable {
            file: Text::from_str(alloc, name_at(names, file))?,
            row,
            number,
        }),
        LoadFault::NoMemory => Ok(SourceFault::NoMemory),
    }
}

/// The name at a place; empty past the last.
fn name_at(names: &[Text], place: u32) -> &str
    ensures { result.now ≡ unwrap_or (slice_get names.now place) [] }
{
    match names.get(place as usize) {
        Some(name) => name.as_str(),
        None => "",
    }
}
