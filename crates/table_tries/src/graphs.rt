//! Cases of configurations, of table files and of inline lines.
ghost use Rattle.std.specs.Prelude.{◌≡◌, ◌<◌};

use crate::case::bytes_of;
use crate::schema::{fault, push_tables};
use column_types::{List, NoMemory, Steps, Text};
use graph_config::{Config, ConfigFault, read_config};
use graph_model::Graph;
use graph_snap::Snapshot;
use journal_text::{graph_text, push_count};
use std::alloc::Global;
use std::marker::Brand;
use std::sync::ledger::{Blank, Ledger};
use std::thread::Threads;
use table_loader::{LoadFault, read_inline, read_tables};

/// The configuration `people`: persons with an age, and whom they know.
const PEOPLE: &str =
    "{\"vertex_providers\":[{\"name\":\"Person\",\"file\":\"p.csv\",\"props\":[{\"name\":\"age\",\"type\":\"integer\"}]}],\"edge_providers\":[{\"name\":\"knows\",\"file\":\"k.csv\",\"source_vertex_provider\":\"Person\",\"destination_vertex_provider\":\"Person\"}]}";

/// The configuration `names`: vertex tables A and B, of which B has names, and an edge table e from A to B.
const NAMES: &str =
    "{\"vertex_providers\":[{\"name\":\"A\",\"file\":\"a\"},{\"name\":\"B\",\"file\":\"b\",\"props\":[{\"name\":\"name\",\"type\":\"string\"}]}],\"edge_providers\":[{\"name\":\"e\",\"file\":\"e\",\"source_vertex_provider\":\"A\",\"destination_vertex_provider\":\"B\"}]}";

/// `config JSON`.
pub fn config(alloc: Global, rest: &str) -> Result<Text, NoMemory> {
    let bytes = bytes_of(alloc, rest)?;
    match read_config(alloc, bytes.as_slice()) {
        Ok(config) => shown(alloc, &config),
        Err(ConfigFault::At { number, path }) => fault(alloc, number, path.as_str()),
        Err(ConfigFault::NoMemory) => Err(NoMemory),
    }
}

fn shown(alloc: Global, config: &Config) -> Result<Text, NoMemory> {
    let mut out = Text::from_str(alloc, "ok")?;
    push_tables(&mut out, &config.schema, config.files.as_slice())?;
    Ok(out)
}

/// `tables CONFIG|FILE..`.
pub fn tables<R: Threads + Sync>(rt: &R, alloc: Global, rest: &str) -> Result<Text, NoMemory> {
    let (config, files) = rest.split_once('|').unwrap_or((rest, ""));
    match read_config(alloc, config_text(config).as_bytes()) {
        Ok(config) => loaded(rt, alloc, &config, files),
        Err(ConfigFault::At { number, path }) => fault(alloc, number, path.as_str()),
        Err(ConfigFault::NoMemory) => Err(NoMemory),
    }
}

fn config_text(word: &str) -> &str {
    match word {
        "people" => PEOPLE,
        "names" => NAMES,
        json => json,
    }
}

/// The graph of files, or their first fault.
fn loaded<R: Threads + Sync>(
    rt: &R,
    alloc: Global,
    config: &Config,
    texts: &str,
) -> Result<Text, NoMemory> {
    let files = files_of(alloc, texts)?;
    if files.len() != config.files.len() {
        return Text::from_str(alloc, "another number of files");
    }
    graph_or_fault(rt, alloc, read_tables(alloc, config, files))
}

fn files_of(alloc: Global, texts: &str) -> Result<List<List<u8>>, NoMemory> {
    let mut files = List::new(alloc);
    for text in texts.split('|') {
        files.push(bytes_of(alloc, text)?)?;
    }
    Ok(files)
}

fn graph_or_fault<R: Threads + Sync>(
    rt: &R,
    alloc: Global,
    read: Result<Graph, LoadFault>,
) -> Result<Text, NoMemory> {
    match read {
        Ok(graph) => shown_rows::<Brand, _>(rt, alloc, Blank::new(1), graph),
        Err(LoadFault::Bad { file, row, number }) => place(alloc, file, row, number),
        Err(LoadFault::NoMemory) => Err(NoMemory),
    }
}

/// The text of a graph, whose snapshot is made by a counter that nobody reads.
fn shown_rows<L: Ledger, R: Threads + Sync>(
    rt: &R,
    alloc: Global,
    blank: Blank,
    graph: Graph,
) -> Result<Text, NoMemory>
    requires name { blank.name ≡ L.name }
    requires parts { blank.parts ≡ L.parts }
    requires some { 0 < blank.parts }
{
    let mut steps = Steps::<L>::new(rt, blank);
    let snapshot = Snapshot::of_graph(alloc, graph, &mut steps)?;
    graph_text(alloc, &snapshot)
}

/// The place of a fault, and its number.
fn place(alloc: Global, file: u32, row: u64, number: u32) -> Result<Text, NoMemory> {
    let mut out = Text::from_str(alloc, "file ")?;
    push_count(&mut out, u64::from(file))?;
    out.push(" row ")?;
    push_count(&mut out, row)?;
    out.push(" fault ")?;
    push_count(&mut out, u64::from(number))?;
    Ok(out)
}

/// `inline LINES`.
pub fn inline<R: Threads + Sync>(rt: &R, alloc: Global, rest: &str) -> Result<Text, NoMemory> {
    let vertices = vertices_of(alloc, rest)?;
    let edges = edges_of(alloc, rest)?;
    graph_or_fault(
        rt,
        alloc,
        read_inline(alloc, vertices.as_slice(), edges.as_slice()),
    )
}

fn vertices_of(alloc: Global, lines: &str) -> Result<List<i64>, NoMemory> {
    let mut vertices = List::new(alloc);
    for line in lines.split('\n') {
        if let Some(key) = line.strip_prefix("v ") {
            vertices.push(number_of(key))?;
        }
    }
    Ok(vertices)
}

fn edges_of(alloc: Global, lines: &str) -> Result<List<(i64, i64, i64)>, NoMemory> {
    let mut edges = List::new(alloc);
    for line in lines.split('\n') {
        if let Some(edge) = line.strip_prefix("e ") {
            edges.push(edge_of(edge))?;
        }
    }
    Ok(edges)
}

/// The key, the source and the destination of an edge.
fn edge_of(words: &str) -> (i64, i64, i64) {
    let (key, ends) = words.split_once(' ').unwrap_or((words, ""));
    let (source, destination) = ends.split_once(' ').unwrap_or((ends, ""));
    (number_of(key), number_of(source), number_of(destination))
}

fn number_of(word: &str) -> i64 {
    word.parse::<i64>().unwrap_or(0)
}
