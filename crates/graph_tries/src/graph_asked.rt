//! Questions about the graph itself, and about numbers and ends alone.
//!
//! | question | answer |
//! |---|---|
//! | `size` | how many vertices and edges there are |
//! | `rows` | the text of the snapshot of the graph |
//! | `slots` | the names of the schema's slots |
//! | `touches CHANGE` | the slots that a change touches where it fits |
//! | `number N`, `count N` | a number, and one without sign, as they are printed |
//! | `ends N END ..` | the rows of a list of ends, for N vertices |
use crate::changes::change_of;
use crate::parts_asked::ask_parts;
use crate::show::{cut, one_line, push_comma, push_places};
use column_types::{List, NoMemory, Steps, Text};
use csr_rows::Rows;
use graph_model::{Change, Graph, Schema};
use graph_slots::{SlotName, slot_names, touches};
use graph_snap::Snapshot;
use journal_text::{graph_text, push_count, push_number};
use std::alloc::Global;
use std::sync::ledger::Ledger;
use std::thread::Threads;

/// The answer to a question.
pub fn ask_graph<L: Ledger, R: Threads + Sync>(
    rt: &R,
    alloc: Global,
    graph: &Graph,
    question: &str,
    steps: &mut Steps<L>,
) -> Result<Text, NoMemory> {
    let (word, rest) = cut(question, ' ');
    match word {
        "size" => size(alloc, graph),
        "rows" => rows(alloc, graph, steps),
        "slots" => slots(alloc, graph.schema()),
        "touches" => touched(alloc, graph.schema(), rest),
        "number" => number(alloc, rest),
        "count" => count(alloc, rest),
        "ends" => ends(alloc, rest, steps),
        _ => ask_parts(rt, alloc, graph, question, steps),
    }
}

fn size(alloc: Global, graph: &Graph) -> Result<Text, NoMemory> {
    let mut out = Text::new(alloc);
    push_count(&mut out, u64::from(graph.vertex_count()))?;
    out.push(" ")?;
    push_count(&mut out, u64::from(graph.edge_count()))?;
    Ok(out)
}

fn rows<L: Ledger>(alloc: Global, graph: &Graph, steps: &mut Steps<L>) -> Result<Text, NoMemory> {
    let snapshot = Snapshot::build(alloc, graph, steps)?;
    one_line(alloc, graph_text(alloc, &snapshot)?.as_str())
}

fn number(alloc: Global, word: &str) -> Result<Text, NoMemory> {
    let mut out = Text::new(alloc);
    match word.parse::<i64>() {
        Ok(n) => push_number(&mut out, n)?,
        Err(_) => out.push("no number")?,
    }
    Ok(out)
}

fn count(alloc: Global, word: &str) -> Result<Text, NoMemory> {
    let mut out = Text::new(alloc);
    match word.parse::<u64>() {
        Ok(n) => push_count(&mut out, n)?,
        Err(_) => out.push("no number")?,
    }
    Ok(out)
}

// ---- slots

fn slots(alloc: Global, schema: &Schema) -> Result<Text, NoMemory> {
    let names = slot_names(alloc, schema)?;
    let mut out = Text::new(alloc);
    for name in names.as_slice() {
        push_name(alloc, &mut out, *name)?;
    }
    Ok(out)
}

/// Appends the name of a slot.
pub fn push_name(alloc: Global, out: &mut Text, name: SlotName) -> Result<(), NoMemory> {
    push_comma(out)?;
    let shown = format!(in alloc; "{name:?}")?;
    out.push(shown.as_str())
}

fn touched(alloc: Global, schema: &Schema, row: &str) -> Result<Text, NoMemory> {
    match change_of(alloc, schema, row)? {
        Some(change) => touched_slots(alloc, schema, &change),
        None => Text::from_str(alloc, "no change"),
    }
}

fn touched_slots(alloc: Global, schema: &Schema, change: &Change) -> Result<Text, NoMemory> {
    let names = slot_names(alloc, schema)?;
    let mut out = Text::new(alloc);
    for name in names.as_slice() {
        if touches(schema, change, *name) {
            push_name(alloc, &mut out, *name)?;
        }
    }
    Ok(out)
}

// ---- rows of ends

/// The rows of a list of ends.
fn ends<L: Ledger>(alloc: Global, words: &str, steps: &mut Steps<L>) -> Result<Text, NoMemory> {
    let (n, words) = cut(words, ' ');
    let n = n.parse::<u32>().unwrap_or(0);
    let ends = ends_of(alloc, words)?;
    if ends.len() > 1000 || !ends.as_slice().iter().all(|end| *end < n) {
        return Text::from_str(alloc, "ends past the vertices");
    }
    let rows = Rows::build(alloc, n, ends.as_slice(), steps)?;
    rows_text(alloc, &rows, n)
}

fn ends_of(alloc: Global, words: &str) -> Result<List<u32>, NoMemory> {
    let mut ends = List::new(alloc);
    for word in words.split(' ') {
        if let Ok(end) = word.parse::<u32>() {
            ends.push(end)?;
        }
    }
    Ok(ends)
}

fn rows_text(alloc: Global, rows: &Rows, count: u32) -> Result<Text, NoMemory> {
    let mut out = Text::new(alloc);
    push_rows(&mut out, rows, count)?;
    Ok(out)
}

/// Appends the first rows.
pub fn push_rows(out: &mut Text, rows: &Rows, count: u32) -> Result<(), NoMemory> {
    out.push("rows")?;
    for i in 0..count {
        push_places(out, rows.row(i))?;
    }
    Ok(())
}
