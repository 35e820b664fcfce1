//! Calls of one session, with their history and what the session holds.
ghost use Rattle.std.specs.Prelude.{◌≡◌, ◌<◌};

use crate::clients::Client;
use crate::read_calls::read_call;
use crate::sources::{graph_of_six, source_of};
use crate::texts::{push_answer, push_bare_reply};
use catalogue::{Ask, Snap};
use catalogue_hall::Told;
use column_types::{NoMemory, Steps, Text};
use graph_model::Graph;
use journal_text::push_count;
use std::alloc::Global;
use std::marker::Brand;
use std::sync::ledger::{Blank, Ledger};
use std::thread::Threads;

/// The answers to the calls and questions of a session, on a new catalogue of the source that is named first.
pub fn answers<R: Threads + Sync>(rt: &R, alloc: Global, parts: &str) -> Result<Text, NoMemory> {
    let (source, steps) = parts.split_once(" | ").unwrap_or((parts, ""));
    let mut client = client_of(rt, alloc, source)?;
    answers_of(&mut client, rt, alloc, steps)
}

/// A session on a catalogue of the source `s`, or of none.
fn client_of<R: Threads + Sync>(rt: &R, alloc: Global, source: &str) -> Result<Client, NoMemory> {
    if source != "s" {
        return Client::new(alloc, None);
    }
    match graph_of_six(alloc)? {
        Some(graph) => client_over::<Brand, R>(rt, alloc, &graph, Blank::new(1)),
        None => Client::new(alloc, None),
    }
}

/// A session on a catalogue of the source `s` with this graph.
fn client_over<L: Ledger, R: Threads + Sync>(
    rt: &R,
    alloc: Global,
    graph: &Graph,
    blank: Blank,
) -> Result<Client, NoMemory>
    requires name { blank.name ≡ L.name }
    requires parts { blank.parts ≡ L.parts }
    requires some { 0 < blank.parts }
{
    let mut steps = Steps::<L>::new(rt, blank);
    let source = source_of(alloc, graph, &mut steps)?;
    Client::new(alloc, Some(source))
}

fn answers_of<R: Threads + Sync>(
    client: &mut Client,
    rt: &R,
    alloc: Global,
    parts: &str,
) -> Result<Text, NoMemory> {
    let mut answers = Text::new(alloc);
    for part in parts.split(" | ") {
        let answer = part_answer(client, rt, alloc, part)?;
        push_answer(&mut answers, answer.as_str())?;
    }
    Ok(answers)
}

/// The answer to a question or a call.
fn part_answer<R: Threads + Sync>(
    client: &mut Client,
    rt: &R,
    alloc: Global,
    part: &str,
) -> Result<Text, NoMemory> {
    if let Some(name) = part.strip_prefix("snap ") {
        return snap_answer(alloc, client.snap(name));
    }
    match part {
        "count" => number_answer(alloc, client.count()),
        "sources" => number_answer(alloc, client.source_count()),
        _ => call_answer(client, rt, alloc, part),
    }
}

fn number_answer(alloc: Global, number: usize) -> Result<Text, NoMemory> {
    let mut answer = Text::new(alloc);
    push_count(&mut answer, number as u64)?;
    Ok(answer)
}

/// A snapshot's id, front and columns.
fn snap_answer(alloc: Global, snap: Option<&Snap>) -> Result<Text, NoMemory> {
    let Some(snap) = snap else {
        return Text::from_str(alloc, "none");
    };
    let mut answer = Text::from_str(alloc, "sid ")?;
    push_count(&mut answer, snap.sid)?;
    answer.push(" front ")?;
    push_count(&mut answer, snap.front)?;
    answer.push(" columns")?;
    for column in snap.columns.as_slice() {
        answer.push(" ")?;
        push_count(&mut answer, *column)?;
    }
    Ok(answer)
}

fn call_answer<R: Threads + Sync>(
    client: &mut Client,
    rt: &R,
    alloc: Global,
    call: &str,
) -> Result<Text, NoMemory> {
    match read_call(alloc, call)? {
        Some(ask) => ask_answer(client, rt, alloc, ask),
        None => Text::from_str(alloc, "no call"),
    }
}

/// The number of a call, and its reply.
fn ask_answer<R: Threads + Sync>(
    client: &mut Client,
    rt: &R,
    alloc: Global,
    ask: Ask,
) -> Result<Text, NoMemory> {
    let told = client.ask(rt, alloc, ask)?;
    told_answer(alloc, &told)
}

fn told_answer(alloc: Global, told: &Told) -> Result<Text, NoMemory> {
    let mut answer = Text::new(alloc);
    push_count(&mut answer, told.number)?;
    answer.push(" ")?;
    push_bare_reply(&mut answer, alloc, &told.reply)?;
    Ok(answer)
}
