//! Calls of several callers on one catalogue.
ghost use Rattle.std.specs.Prelude.{◌≡◌, ◌<◌};

use crate::callers::Callers;
use crate::read_calls::read_call;
use crate::runs::Runs;
use crate::sources::{graph_of_six, source_of};
use crate::texts::{push_answer, push_bare_reply};
use catalogue::Ask;
use column_types::{NoMemory, Steps, Text};
use graph_model::Graph;
use journal_text::push_count;
use std::alloc::Global;
use std::marker::Brand;
use std::sync::ledger::{Blank, Ledger};
use std::thread::Threads;

/// The answers to calls of a new catalogue whose source is `s`.
pub fn answers<R: Threads + Sync>(rt: &R, alloc: Global, parts: &str) -> Result<Text, NoMemory> {
    match graph_of_six(alloc)? {
        Some(graph) => {
            let mut callers = callers_over::<Brand, R>(rt, alloc, &graph, Blank::new(1))?;
            answers_of(&mut callers, rt, alloc, parts)
        }
        None => Text::from_str(alloc, "no schema"),
    }
}

/// The callers of a catalogue whose source has this graph.
fn callers_over<L: Ledger, R: Threads + Sync>(
    rt: &R,
    alloc: Global,
    graph: &Graph,
    blank: Blank,
) -> Result<Callers, NoMemory>
    requires name { blank.name ≡ L.name }
    requires parts { blank.parts ≡ L.parts }
    requires some { 0 < blank.parts }
{
    let mut steps = Steps::<L>::new(rt, blank);
    let source = source_of(alloc, graph, &mut steps)?;
    Callers::new(alloc, source)
}

/// The answers to parts, with bars between them.
fn answers_of<R: Threads + Sync>(
    callers: &mut Callers,
    rt: &R,
    alloc: Global,
    parts: &str,
) -> Result<Text, NoMemory> {
    let mut answers = Text::new(alloc);
    for part in parts.split(" | ") {
        let answer = part_answer(callers, rt, alloc, part)?;
        push_answer(&mut answers, answer.as_str())?;
    }
    Ok(answers)
}

/// The answer to a call, or to one call for each number of a range.
fn part_answer<R: Threads + Sync>(
    callers: &mut Callers,
    rt: &R,
    alloc: Global,
    part: &str,
) -> Result<Text, NoMemory> {
    match range_of(part) {
        Some(range) => range_answer(callers, rt, alloc, range),
        None => call_answer(callers, rt, alloc, part),
    }
}

/// The bounds and the call of `A..B: CALL`.
fn range_of(part: &str) -> Option<(u64, u64, &str)> {
    let (range, call) = part.split_once(": ")?;
    let (first, last) = range.split_once("..")?;
    Some((first.parse().ok()?, last.parse().ok()?, call))
}

/// The answers to a call with each number of a range.
fn range_answer<R: Threads + Sync>(
    callers: &mut Callers,
    rt: &R,
    alloc: Global,
    (first, last, call): (u64, u64, &str),
) -> Result<Text, NoMemory> {
    let mut runs = Runs::new(alloc);
    for number in first..=last {
        runs.push(numbered_answer(callers, rt, alloc, call, number)?)?;
    }
    runs.finish()
}

/// The answer to a call with a number in the place of `#`, with `#` for that number.
fn numbered_answer<R: Threads + Sync>(
    callers: &mut Callers,
    rt: &R,
    alloc: Global,
    call: &str,
    number: u64,
) -> Result<Text, NoMemory> {
    let call = with_number(alloc, call, number)?;
    let answer = call_answer(callers, rt, alloc, call.as_str())?;
    without_number(alloc, answer.as_str(), number)
}

/// A text with a number in the place of each `#`.
fn with_number(alloc: Global, text: &str, number: u64) -> Result<Text, NoMemory> {
    let mut made = Text::new(alloc);
    for c in text.chars() {
        if c == '#' {
            push_count(&mut made, number)?;
        } else {
            made.push_char(c)?;
        }
    }
    Ok(made)
}

/// A text with `#` in the place of each word that is this number.
fn without_number(alloc: Global, text: &str, number: u64) -> Result<Text, NoMemory> {
    let mut made = Text::new(alloc);
    for word in text.split(' ') {
        if !made.is_empty() {
            made.push(" ")?;
        }
        let is_number = word.parse::<u64>().is_ok_and(|n| n == number);
        made.push(if is_number { "#" } else { word })?;
    }
    Ok(made)
}

/// The answer to a caller's number and its call.
fn call_answer<R: Threads + Sync>(
    callers: &mut Callers,
    rt: &R,
    alloc: Global,
    part: &str,
) -> Result<Text, NoMemory> {
    let (who, call) = part.split_once(' ').unwrap_or((part, ""));
    let Ok(who) = who.parse::<u32>() else {
        return Text::from_str(alloc, "no caller");
    };
    match read_call(alloc, call)? {
        Some(ask) => ask_answer(callers, rt, alloc, who, ask),
        None => Text::from_str(alloc, "no call"),
    }
}

/// The reply to a call.
fn ask_answer<R: Threads + Sync>(
    callers: &mut Callers,
    rt: &R,
    alloc: Global,
    who: u32,
    ask: Ask,
) -> Result<Text, NoMemory> {
    let Some(reply) = callers.ask(rt, alloc, who, ask)? else {
        return Text::from_str(alloc, "no caller");
    };
    let mut answer = Text::new(alloc);
    push_bare_reply(&mut answer, alloc, &reply)?;
    Ok(answer)
}
