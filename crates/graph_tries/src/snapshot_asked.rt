//! Questions about the snapshot of a graph.
//!
//! | question | answer |
//! |---|---|
//! | `vertices` | for each vertex its position, as `TABLE.PLACE`, its key and its values |
//! | `edges` | for each edge its position, its key, the positions of its ends and its values |
//! | `around` | for each vertex the places of the edges that leave it, for each edge table, and of those that enter it |
//! | `find KEY ..` | for each key where a vertex and where an edge has it, or `-` |
//! | `names` | how many slots there are, and their names |
//! | `back` | the text of the snapshot of the graph that the snapshot is turned back into |
//! | `shared QUESTION`, `assembled QUESTION` | the answer of a snapshot that shares the parts, or that is assembled from them |
//! | `derived QUESTION` | the answer of a snapshot that is made from it and keeps all of its slots |
ghost use Rattle.std.specs.Prelude.{◌≡◌, ◌<◌, ◌≤◌, All, map, length, IfOk};
ghost use Rattle.graph_model.specs.Graph.{vertex_props_at, edge_props_at};
ghost use Rattle.graph_slots.specs.Slots.{slots};
ghost use Rattle.graph_slots.specs.Meaning.{slot_value};
ghost use Rattle.graph_snap.specs.Reading.{HasVertex, HasEdge};
ghost use Rattle.graph_snap.specs.Sharing.{IsKnown, graph_parts, parts_of};

use crate::digraph_asked::ask_digraph;
use crate::graph_asked::push_name;
use crate::show::{cut, one_line, push_comma, push_places, push_position, push_value};
use column_types::{List, NoMemory, Steps, Text};
use graph_model::{Graph, Prop};
use graph_slots::Part;
use graph_snap::{Built, Derived, EdgeAt, Snapshot, VertexAt};
use journal_text::{graph_text, push_count, push_number};
use std::alloc::Global;
use std::sync::ledger::Ledger;
use std::thread::Threads;

/// The answer of the snapshot of a graph.
pub fn ask_snapshot<L: Ledger, R: Threads + Sync>(
    rt: &R,
    alloc: Global,
    graph: &Graph,
    question: &str,
    steps: &mut Steps<L>,
) -> Result<Text, NoMemory> {
    let snapshot = Snapshot::build(alloc, graph, steps)?;
    if let Some(question) = question.strip_prefix("shared ") {
        return ask_shared(rt, alloc, &snapshot, question, steps);
    }
    if let Some(question) = question.strip_prefix("assembled ") {
        return ask_assembled(rt, alloc, &snapshot, question, steps);
    }
    if let Some(question) = question.strip_prefix("derived ") {
        return ask_derived(rt, alloc, &snapshot, question, steps);
    }
    ask(rt, alloc, &snapshot, question, steps)
}

fn ask_shared<L: Ledger, R: Threads + Sync>(
    rt: &R,
    alloc: Global,
    on: &Snapshot,
    question: &str,
    steps: &mut Steps<L>,
) -> Result<Text, NoMemory> {
    let shared = on.share(alloc)?;
    ask(rt, alloc, &shared, question, steps)
}

fn ask_assembled<L: Ledger, R: Threads + Sync>(
    rt: &R,
    alloc: Global,
    on: &Snapshot,
    question: &str,
    steps: &mut Steps<L>,
) -> Result<Text, NoMemory> {
    let copy = assembled(alloc, on)?;
    ask(rt, alloc, &copy, question, steps)
}

fn ask_derived<L: Ledger, R: Threads + Sync>(
    rt: &R,
    alloc: Global,
    on: &Snapshot,
    question: &str,
    steps: &mut Steps<L>,
) -> Result<Text, NoMemory> {
    let built = derived(alloc, on)?;
    ask(rt, alloc, &built.shot, question, steps)
}

/// The snapshot that keeps each slot of a snapshot.
fn derived(alloc: Global, on: &Snapshot) -> Result<Built, NoMemory> {
    on.sound();
    let kept = all_kept(alloc, on)?;
    Snapshot::derive(alloc, on, on.schema().clone()?, kept, 0)
}

/// Each slot of a snapshot, kept.
fn all_kept(alloc: Global, on: &Snapshot) -> Result<List<Derived>, NoMemory>
    ensures known { IfOk result (All (IsKnown on.now)) }
    ensures parts { IfOk result (λ kept. parts_of on.now kept ≡ graph_parts on.now) }
{
    let mut kept = List::new(alloc);
    for slot in 0..on.slot_count() {
        kept.push(Derived::Kept(slot))?;
    }
    Ok(kept)
}

/// The snapshot of a snapshot's own parts.
fn assembled(alloc: Global, on: &Snapshot) -> Result<Snapshot, NoMemory> {
    on.sound();
    let parts = parts_of(alloc, on)?;
    Snapshot::assemble(alloc, on.schema().clone()?, parts)
}

/// All parts of a snapshot, shared.
fn parts_of(alloc: Global, on: &Snapshot) -> Result<List<Part>, NoMemory>
    ensures { IfOk result (λ parts. parts ≡ map (slot_value on.now) (slots on.now.schema)) }
{
    let mut parts = List::new(alloc);
    for slot in 0..on.slot_count() {
        let part = on.part(slot).share()?;
        parts.push(part)?;
    }
    Ok(parts)
}

/// The answer of a snapshot.
fn ask<L: Ledger, R: Threads + Sync>(
    rt: &R,
    alloc: Global,
    on: &Snapshot,
    question: &str,
    steps: &mut Steps<L>,
) -> Result<Text, NoMemory> {
    let (word, rest) = cut(question, ' ');
    match word {
        "vertices" => vertices(alloc, on),
        "edges" => edges(alloc, on),
        "around" => around(alloc, on),
        "find" => found(alloc, on, rest),
        "names" => names(alloc, on),
        "back" => back(alloc, on, steps),
        _ => ask_digraph(rt, alloc, on, question),
    }
}

fn back<L: Ledger>(alloc: Global, on: &Snapshot, steps: &mut Steps<L>) -> Result<Text, NoMemory> {
    let graph = on.to_graph(alloc)?;
    let again = Snapshot::of_graph(alloc, graph, steps)?;
    one_line(alloc, graph_text(alloc, &again)?.as_str())
}

fn names(alloc: Global, on: &Snapshot) -> Result<Text, NoMemory> {
    let mut out = Text::new(alloc);
    push_count(&mut out, u64::from(on.slot_count()))?;
    for slot in 0..on.slot_count() {
        push_name(alloc, &mut out, on.slot_name(slot))?;
    }
    Ok(out)
}

/// How many items there are, which are few.
fn count_of<T>(items: &[T]) -> u32
    ensures { result ≤ length items.now }
{
    u32::try_from(items.len()).unwrap_or(0)
}

// ---- vertices

fn vertices(alloc: Global, on: &Snapshot) -> Result<Text, NoMemory> {
    let mut out = Text::new(alloc);
    for table in 0..count_of(on.schema().vertices()) {
        push_vertices(alloc, on, table, &mut out)?;
    }
    Ok(out)
}

fn push_vertices(alloc: Global, on: &Snapshot, table: u32, out: &mut Text) -> Result<(), NoMemory>
    requires { table < length on.now.schema.vertices }
{
    for place in 0..on.vertex_count(table) {
        push_vertex(alloc, on, VertexAt { table, place }, out)?;
    }
    Ok(())
}

fn push_vertex(alloc: Global, on: &Snapshot, at: VertexAt, out: &mut Text) -> Result<(), NoMemory>
    requires table { at.table < length on.now.schema.vertices }
    requires vertex { HasVertex on.now at }
{
    push_comma(out)?;
    push_position(out, at.table, at.place)?;
    out.push(" ")?;
    push_number(out, on.vertex_key(at))?;
    for prop in 0..count_of(vertex_props(on, at.table)) {
        out.push(" ")?;
        push_value(alloc, out, on.vertex_value(at, prop))?;
    }
    Ok(())
}

/// The properties of a vertex table.
fn vertex_props(on: &Snapshot, table: u32) -> &[Prop]
    requires { table < length on.now.schema.vertices }
    ensures { result.now ≡ vertex_props_at on.now.schema table }
{
    on.schema().vertices()[table as usize].props.as_slice()
}

// ---- edges

fn edges(alloc: Global, on: &Snapshot) -> Result<Text, NoMemory> {
    let mut out = Text::new(alloc);
    for table in 0..count_of(on.schema().edges()) {
        push_edges(alloc, on, table, &mut out)?;
    }
    Ok(out)
}

fn push_edges(alloc: Global, on: &Snapshot, table: u32, out: &mut Text) -> Result<(), NoMemory>
    requires { table < length on.now.schema.edges }
{
    for place in 0..on.edge_count(table) {
        push_edge(alloc, on, EdgeAt { table, place }, out)?;
    }
    Ok(())
}

fn push_edge(alloc: Global, on: &Snapshot, at: EdgeAt, out: &mut Text) -> Result<(), NoMemory>
    requires table { at.table < length on.now.schema.edges }
    requires edge { HasEdge on.now at }
{
    push_comma(out)?;
    push_position(out, at.table, at.place)?;
    out.push(" ")?;
    push_number(out, on.edge_key(at))?;
    push_ends(out, on.ends(at))?;
    for prop in 0..count_of(edge_props(on, at.table)) {
        out.push(" ")?;
        push_value(alloc, out, on.edge_value(at, prop))?;
    }
    Ok(())
}

fn push_ends(out: &mut Text, ends: (VertexAt, VertexAt)) -> Result<(), NoMemory> {
    out.push(" ")?;
    push_position(out, ends.0.table, ends.0.place)?;
    out.push(">")?;
    push_position(out, ends.1.table, ends.1.place)
}

/// The properties of an edge table.
fn edge_props(on: &Snapshot, table: u32) -> &[Prop]
    requires { table < length on.now.schema.edges }
    ensures { result.now ≡ edge_props_at on.now.schema table }
{
    on.schema().edges()[table as usize].props.as_slice()
}

// ---- edges at vertices

fn around(alloc: Global, on: &Snapshot) -> Result<Text, NoMemory> {
    let mut out = Text::new(alloc);
    for table in 0..count_of(on.schema().vertices()) {
        push_around_table(on, table, &mut out)?;
    }
    Ok(out)
}

fn push_around_table(on: &Snapshot, table: u32, out: &mut Text) -> Result<(), NoMemory>
    requires { table < length on.now.schema.vertices }
{
    for place in 0..on.vertex_count(table) {
        push_around(on, VertexAt { table, place }, out)?;
    }
    Ok(())
}

/// Appends the edges of each table that leave a vertex, and those that enter it.
fn push_around(on: &Snapshot, at: VertexAt, out: &mut Text) -> Result<(), NoMemory> {
    push_comma(out)?;
    push_position(out, at.table, at.place)?;
    out.push(" out")?;
    for edges in 0..count_of(on.schema().edges()) {
        push_places(out, on.out_row(at, edges))?;
    }
    out.push(" in")?;
    for edges in 0..count_of(on.schema().edges()) {
        push_places(out, on.in_row(at, edges))?;
    }
    Ok(())
}

// ---- keys

fn found(alloc: Global, on: &Snapshot, words: &str) -> Result<Text, NoMemory> {
    let mut out = Text::new(alloc);
    for word in words.split(' ') {
        push_comma(&mut out)?;
        match word.parse::<i64>() {
            Ok(key) => push_found(&mut out, on, key)?,
            Err(_) => out.push("no key")?,
        }
    }
    Ok(out)
}

/// Appends where a vertex and where an edge has a key.
fn push_found(out: &mut Text, on: &Snapshot, key: i64) -> Result<(), NoMemory> {
    match on.vertex_of_key(key) {
        Some(at) => push_position(out, at.table, at.place)?,
        None => out.push("-")?,
    }
    out.push(" ")?;
    match on.edge_of_key(key) {
        Some(at) => push_position(out, at.table, at.place),
        None => out.push("-"),
    }
}
