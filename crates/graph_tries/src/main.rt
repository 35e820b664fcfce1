//! Reads cases, one a line, and writes the answers to each, in one line with ` | ` between them. A line that begins with
//! `== ` is a heading and is written as it is.
//!
//! A case is parts with ` | ` between them, taken from left to right: the tables of a graph, then changes and questions.
//!
//! | part | what it is |
//! |---|---|
//! | `V NAME PROP:KIND ..` | a vertex table; KIND is `integer`, `long`, `boolean`, `string` or `local_date` |
//! | `E NAME SOURCE>DESTINATION PROP:KIND ..` | an edge table |
//! | `keys per table` | keys differ within each table, and not over all tables |
//! | `iv,TABLE,KEY,VALUE,..`, `dv,TABLE,KEY`, `sv,TABLE,KEY,PROP,VALUE` | a change of vertices: insert, delete, set |
//! | `ie,TABLE,KEY,SOURCE,DESTINATION,VALUE,..`, `de,TABLE,KEY`, `se,TABLE,KEY,PROP,VALUE` | a change of edges |
//! | `put` and one of `iv` and `ie` | the same by the call that takes the values over |
//! | `iv,TABLE,FIRST..LAST` | vertices of these keys without values |
//!
//! A change has an answer only where it does not fit: the cause. A value without text is NULL, `~` in a value is a line feed,
//! and a value that is none of its property's kind is taken as a text. Tables and properties that are not there have the place
//! 4294967295.
//!
//! The questions stand in the modules: `graph_asked`, `snapshot_asked` and `digraph_asked`. In an answer `none` is an empty one,
//! and `~` a line feed.
#![tactic(auto)]

ghost use Rattle.std.specs.Prelude.{◌≡◌, ◌<◌};

mod changes;
mod digraph_asked;
mod graph_asked;
mod parts_asked;
mod show;
mod snapshot_asked;
mod tables;

use crate::changes::{change_of, put, range_of};
use crate::graph_asked::ask_graph;
use crate::show::push_answer;
use crate::tables::schema_of;
use column_types::{List, NoMemory, Steps, Text};
use graph_model::{ApplyFault, Graph, Schema, SchemaFault};
use std::alloc::Global;
use std::io;
use std::marker::Brand;
use std::sync::ledger::{Blank, Ledger};
use std::thread::Threads;

fn main(rt: HostRuntime) -> io::Result<()> {
    for line in rt.lines(rt.alloc()) {
        let line = line?;
        match line_answered(&rt, rt.alloc(), line.as_str()) {
            Ok(text) => println!(rt; "{}", text.as_str())?,
            Err(_) => println!(rt; "out of memory")?,
        }
    }
    Ok(())
}

fn line_answered<R: Threads + Sync>(rt: &R, alloc: Global, line: &str) -> Result<Text, NoMemory> {
    if line.starts_with("== ") {
        return Text::from_str(alloc, line);
    }
    match schema_of(alloc, line) {
        Ok(Some(schema)) => {
            let case = Text::from_str(alloc, line)?;
            case_answered::<Brand, _>(rt, alloc, Blank::new(1), schema, &case)
        }
        Ok(None) => Text::from_str(alloc, "no schema"),
        Err(SchemaFault::NoMemory) => Err(NoMemory),
        Err(fault) => {
            let cause = format!(in alloc; "{fault}")?;
            Text::from_str(alloc, cause.as_str())
        }
    }
}

/// The answers to a case whose tables are these, by a counter that nobody reads.
fn case_answered<L: Ledger, R: Threads + Sync>(
    rt: &R,
    alloc: Global,
    blank: Blank,
    schema: Schema,
    case: &Text,
) -> Result<Text, NoMemory>
    requires name { blank.name ≡ L.name }
    requires parts { blank.parts ≡ L.parts }
    requires some { 0 < blank.parts }
{
    let mut steps = Steps::<L>::new(rt, blank);
    let mut graph = Graph::empty(alloc, schema)?;
    let mut answers = Text::new(alloc);
    for part in case.as_str().split(" | ") {
        take_part(rt, alloc, &mut graph, part, &mut steps, &mut answers)?;
    }
    Ok(answers)
}

/// Makes a change, or answers a question.
fn take_part<L: Ledger, R: Threads + Sync>(
    rt: &R,
    alloc: Global,
    graph: &mut Graph,
    part: &str,
    steps: &mut Steps<L>,
    answers: &mut Text,
) -> Result<(), NoMemory> {
    if part.starts_with("V ") || part.starts_with("E ") || part == "keys per table" {
        return Ok(());
    }
    if let Some((table, keys)) = range_of(graph.schema(), part) {
        return take_range(alloc, graph, table, keys, answers);
    }
    match change_of(alloc, graph.schema(), part)? {
        Some(change) if part.starts_with("put ") => {
            take_made(alloc, put(alloc, graph, change), answers)
        }
        Some(change) => take_made(alloc, graph.apply(alloc, &change), answers),
        None => {
            let answer = ask_graph(rt, alloc, graph, part, steps)?;
            push_answer(answers, answer.as_str())
        }
    }
}

/// Inserts vertices of these keys, from the first to the last, without values.
fn take_range(
    alloc: Global,
    graph: &mut Graph,
    table: u32,
    keys: (i64, i64),
    answers: &mut Text,
) -> Result<(), NoMemory> {
    for key in keys.0..=keys.1 {
        let made = graph.insert_vertex(table, key, List::new(alloc));
        take_made(alloc, made, answers)?;
    }
    Ok(())
}

/// Answers why a change was not made.
fn take_made(
    alloc: Global,
    made: Result<(), ApplyFault>,
    answers: &mut Text,
) -> Result<(), NoMemory> {
    match made {
        Ok(()) => Ok(()),
        Err(ApplyFault::Misfit(why)) => {
            let cause = format!(in alloc; "{why:?}")?;
            push_answer(answers, cause.as_str())
        }
        Err(ApplyFault::NoMemory) => Err(NoMemory),
    }
}
