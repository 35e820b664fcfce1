//! Questions about the parts of a graph and the index of its keys.
//!
//! | question | answer |
//! |---|---|
//! | `parts` | for each slot what a part holds: the kind and the values of a column, or the places of the edges at each vertex |
//! | `keys KEY ..` | how many parts there are, and for each key where a vertex and where an edge has it, as `TABLE.PLACE`, or `-` |
use crate::graph_asked::{push_name, push_rows};
use crate::show::{cut, push_comma, push_position, push_value};
use crate::snapshot_asked::ask_snapshot;
use column_types::{Column, NoMemory, Shared, Steps, Text};
use graph_columns::{GraphParts, TableIndex, all_parts};
use graph_model::Graph;
use graph_slots::{Part, SlotName, slot_names};
use journal_text::push_count;
use std::alloc::Global;
use std::sync::ledger::Ledger;
use std::thread::Threads;

/// The answer to a question.
pub fn ask_parts<L: Ledger, R: Threads + Sync>(
    rt: &R,
    alloc: Global,
    graph: &Graph,
    question: &str,
    steps: &mut Steps<L>,
) -> Result<Text, NoMemory> {
    let (word, rest) = cut(question, ' ');
    match word {
        "parts" => {
            let made = all_parts(alloc, graph.copy(alloc)?, steps)?;
            parts_text(alloc, graph, made.parts.as_slice())
        }
        "keys" => {
            let made = all_parts(alloc, graph.copy(alloc)?, steps)?;
            keys_text(alloc, &made, rest)
        }
        _ => ask_snapshot(rt, alloc, graph, question, steps),
    }
}

// ---- parts

fn parts_text(alloc: Global, graph: &Graph, parts: &[Part]) -> Result<Text, NoMemory> {
    let names = slot_names(alloc, graph.schema())?;
    let mut out = Text::new(alloc);
    for (name, part) in names.as_slice().iter().zip(parts.iter()) {
        push_name(alloc, &mut out, *name)?;
        push_part(alloc, &mut out, graph, *name, part)?;
    }
    Ok(out)
}

/// Appends what one more holder of a part holds.
fn push_part(
    alloc: Global,
    out: &mut Text,
    graph: &Graph,
    name: SlotName,
    part: &Part,
) -> Result<(), NoMemory> {
    out.push(" ")?;
    match part.share()? {
        Part::Cells(column) => push_column(alloc, out, column.get()),
        Part::Rows(rows) => push_rows(out, rows.get(), vertices_at(alloc, graph, name)?),
    }
}

/// How many vertices the table has at which the edges of a slot of rows end.
fn vertices_at(alloc: Global, graph: &Graph, name: SlotName) -> Result<u32, NoMemory> {
    let table = match name {
        SlotName::Out(edges) => graph
            .schema()
            .edges()
            .get(edges as usize)
            .map_or(0, |t| t.source),
        SlotName::Into(edges) => {
            graph
                .schema()
                .edges()
                .get(edges as usize)
                .map_or(0, |t| t.destination)
        }
        _ => return Ok(0),
    };
    let rows = graph.vertex_rows(alloc, table)?;
    Ok(u32::try_from(rows.len()).unwrap_or(0))
}

fn push_column(alloc: Global, out: &mut Text, column: &Column) -> Result<(), NoMemory> {
    let kind = format!(in alloc; "{:?}", column.kind())?;
    out.push(kind.as_str())?;
    for row in 0..column.len() {
        out.push(" ")?;
        push_value(alloc, out, column.get(row))?;
    }
    Ok(())
}

// ---- keys

fn keys_text(alloc: Global, made: &GraphParts, words: &str) -> Result<Text, NoMemory> {
    let mut out = Text::new(alloc);
    push_count(&mut out, made.parts.len() as u64)?;
    for word in words.split(' ') {
        push_comma(&mut out)?;
        match word.parse::<i64>() {
            Ok(key) => push_key(&mut out, made, key)?,
            Err(_) => out.push("no key")?,
        }
    }
    Ok(out)
}

/// Appends a vertex's and an edge's position.
fn push_key(out: &mut Text, made: &GraphParts, key: i64) -> Result<(), NoMemory> {
    push_first(out, made.vertices.as_slice(), key)?;
    out.push(" ")?;
    push_first(out, made.edges.as_slice(), key)
}

/// Appends the position of the first table's row that has a key.
fn push_first(out: &mut Text, indexes: &[Shared<TableIndex>], key: i64) -> Result<(), NoMemory> {
    for (table, index) in indexes.iter().enumerate() {
        if let Some(place) = index.get().find(key) {
            return push_position(out, u32::try_from(table).unwrap_or(0), place);
        }
    }
    out.push("-")
}
