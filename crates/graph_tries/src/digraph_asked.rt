//! Questions about the digraph of a graph, and algorithms.
//!
//! | question | answer |
//! |---|---|
//! | `digraph` | for each index its vertex's position, and for the edges that leave and enter it their numbers and the vertices at their other ends, as `EDGE>VERTEX` |
//! | `index KEY` | the index of the vertex of a key, and its position by that index |
//! | `hops KEY by WORKERS ..` | for each number of workers the hop distances from the vertex of a key, `-` where there is no walk |
//! | `components by WORKERS ..` | the labels of the components |
//! | `cores by WORKERS ..` | the core numbers |
//! | `strong by WORKERS ..` | the strong labels |
//! | `rank ROUNDS by WORKERS ..` | the ranks after so many rounds, from 0 to 100 |
//! | `weights PROP KEY by WORKERS ..` | the least weights of the walks from the vertex of a key, or why there is no answer |
//! | `round N PLACE .. by WORKERS ..` | how many items a round over the numbers below N gives, and those at places; an item is 7 more than its number |
ghost use Rattle.std.specs.Prelude.{◌≤◌, IfSome};
ghost use Rattle.graph_snap.specs.Reading.{HasVertex};

use crate::show::{
    counts_or_none_text, counts_text, cut, numbers_or_none_text, push_answer, push_comma,
    push_position,
};
use algo_core::core_numbers;
use algo_digraph::{Arcs, FlatDigraph, VertexOrder};
use algo_paths::{PathFault, least_weights};
use algo_rank::{rank, strong_components};
use algo_reach::{components, hops};
use column_types::{NoMemory, Text};
use graph_snap::{Snapshot, VertexAt};
use journal_text::push_count;
use par_rounds::round;
use std::alloc::Global;
use std::thread::Threads;

/// The answer to a question.
pub fn ask_digraph<R: Threads + Sync>(
    rt: &R,
    alloc: Global,
    on: &Snapshot,
    question: &str,
) -> Result<Text, NoMemory> {
    let (word, rest) = cut(question, ' ');
    match word {
        "digraph" => digraph(alloc, on),
        "index" => index(alloc, on, rest),
        _ => match question.split_once(" by ") {
            Some((question, workers)) => by_workers(rt, alloc, on, question, workers),
            None => Text::from_str(alloc, "no such question"),
        },
    }
}

// ---- the digraph

fn digraph(alloc: Global, on: &Snapshot) -> Result<Text, NoMemory> {
    let order = VertexOrder::new(alloc, on)?;
    let digraph = FlatDigraph::new(alloc, on, &order)?;
    digraph_text(alloc, &digraph, &order)
}

fn digraph_text(
    alloc: Global,
    digraph: &FlatDigraph<'_>,
    order: &VertexOrder,
) -> Result<Text, NoMemory> {
    let mut out = Text::new(alloc);
    push_count(&mut out, u64::from(digraph.vertex_count()))?;
    for v in 0..order.vertex_count() {
        push_comma(&mut out)?;
        push_at(&mut out, order.position(v))?;
        out.push(" out")?;
        push_arcs(&mut out, digraph.out_arcs(v))?;
        out.push(" in")?;
        push_arcs(&mut out, digraph.in_arcs(v))?;
    }
    Ok(out)
}

fn push_arcs(out: &mut Text, arcs: Arcs<'_, '_>) -> Result<(), NoMemory> {
    for arc in arcs {
        out.push(" ")?;
        push_count(out, u64::from(arc.edge))?;
        out.push(">")?;
        push_count(out, u64::from(arc.vertex))?;
    }
    Ok(())
}

fn push_at(out: &mut Text, at: VertexAt) -> Result<(), NoMemory> {
    push_position(out, at.table, at.place)
}

fn index(alloc: Global, on: &Snapshot, word: &str) -> Result<Text, NoMemory> {
    match vertex_of(on, word) {
        Some(at) => index_and_back(alloc, on, at),
        None => Text::from_str(alloc, "no vertex"),
    }
}

/// The index of a vertex and, from it, the position of the vertex again.
fn index_and_back(alloc: Global, on: &Snapshot, at: VertexAt) -> Result<Text, NoMemory>
    requires { HasVertex on.now at }
{
    let order = VertexOrder::new(alloc, on)?;
    let index = order.index(at);
    let mut out = Text::new(alloc);
    push_count(&mut out, u64::from(index))?;
    out.push(" ")?;
    push_at(&mut out, order.position(index))?;
    Ok(out)
}

/// The vertex of a key.
fn vertex_of(on: &Snapshot, word: &str) -> Option<VertexAt>
    ensures { IfSome result (λ at. HasVertex on.now at) }
{
    match word.parse::<i64>() {
        Ok(key) => on.vertex_of_key(key),
        Err(_) => None,
    }
}

// ---- algorithms

/// The answers for these numbers of workers.
fn by_workers<R: Threads + Sync>(
    rt: &R,
    alloc: Global,
    on: &Snapshot,
    question: &str,
    numbers: &str,
) -> Result<Text, NoMemory> {
    let mut answers = Text::new(alloc);
    for number in numbers.split(' ') {
        let answer = by_number(rt, alloc, on, question, number)?;
        push_answer(&mut answers, answer.as_str())?;
    }
    Ok(answers)
}

fn by_number<R: Threads + Sync>(
    rt: &R,
    alloc: Global,
    on: &Snapshot,
    question: &str,
    number: &str,
) -> Result<Text, NoMemory> {
    match number.parse::<u32>() {
        Ok(workers) if 1 <= workers && workers <= 64 => run(rt, alloc, on, question, workers),
        _ => Text::from_str(alloc, "no number of workers"),
    }
}

fn run<R: Threads + Sync>(
    rt: &R,
    alloc: Global,
    on: &Snapshot,
    question: &str,
    workers: u32,
) -> Result<Text, NoMemory>
    requires { (1 ≤ workers) × (workers ≤ 64) }
{
    let (word, rest) = cut(question, ' ');
    match word {
        "hops" => hops_from(rt, alloc, on, rest, workers),
        "components" => counts_text(alloc, components(rt, alloc, on, workers)?.as_slice()),
        "cores" => counts_text(alloc, core_numbers(rt, alloc, on, workers)?.as_slice()),
        "strong" => counts_text(alloc, strong_components(rt, alloc, on, workers)?.as_slice()),
        "rank" => ranks_after(rt, alloc, on, rest, workers),
        "weights" => weights_from(rt, alloc, on, rest, workers),
        "round" => round_items(rt, alloc, rest, workers),
        _ => Text::from_str(alloc, "no such question"),
    }
}

fn hops_from<R: Threads + Sync>(
    rt: &R,
    alloc: Global,
    on: &Snapshot,
    word: &str,
    workers: u32,
) -> Result<Text, NoMemory>
    requires { (1 ≤ workers) × (workers ≤ 64) }
{
    match vertex_of(on, word) {
        Some(at) => counts_or_none_text(alloc, hops(rt, alloc, on, at, workers)?.as_slice()),
        None => Text::from_str(alloc, "no vertex"),
    }
}

fn ranks_after<R: Threads + Sync>(
    rt: &R,
    alloc: Global,
    on: &Snapshot,
    word: &str,
    workers: u32,
) -> Result<Text, NoMemory>
    requires { (1 ≤ workers) × (workers ≤ 64) }
{
    match word.parse::<u32>() {
        Ok(rounds) if rounds <= 100 => {
            counts_text(alloc, rank(rt, alloc, on, rounds, workers)?.as_slice())
        }
        _ => Text::from_str(alloc, "no number of rounds"),
    }
}

fn weights_from<R: Threads + Sync>(
    rt: &R,
    alloc: Global,
    on: &Snapshot,
    words: &str,
    workers: u32,
) -> Result<Text, NoMemory>
    requires { (1 ≤ workers) × (workers ≤ 64) }
{
    let (weight, word) = cut(words, ' ');
    let Ok(from) = word.parse::<i64>() else {
        return Text::from_str(alloc, "no key");
    };
    match least_weights(rt, alloc, on, from, weight, workers) {
        Ok(found) => numbers_or_none_text(alloc, found.as_slice()),
        Err(PathFault::NoMemory) => Err(NoMemory),
        Err(fault) => {
            let cause = format!(in alloc; "{fault}")?;
            Text::from_str(alloc, cause.as_str())
        }
    }
}

// ---- rounds

/// How many items a round gives, and some of them.
fn round_items<R: Threads + Sync>(
    rt: &R,
    alloc: Global,
    words: &str,
    workers: u32,
) -> Result<Text, NoMemory>
    requires { (1 ≤ workers) × (workers ≤ 64) }
{
    let (n, places) = cut(words, ' ');
    let n = n.parse::<u32>().unwrap_or(0);
    let items = round(rt, alloc, workers, n, |i: u32| u64::from(i) + 7)?;
    items_text(alloc, items.as_slice(), places)
}

fn items_text(alloc: Global, items: &[u64], places: &str) -> Result<Text, NoMemory> {
    let mut out = Text::new(alloc);
    push_count(&mut out, items.len() as u64)?;
    for place in places.split(' ') {
        out.push(" ")?;
        push_item(&mut out, items, place)?;
    }
    Ok(out)
}

fn push_item(out: &mut Text, items: &[u64], place: &str) -> Result<(), NoMemory> {
    let place = place.parse::<usize>().unwrap_or(usize::MAX);
    match items.get(place) {
        Some(item) => push_count(out, *item),
        None => out.push("-"),
    }
}
