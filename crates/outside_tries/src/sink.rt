//! Cases of sinks.
use crate::{number_of, numbers_of, push_bytes};
use column_types::{List, NoMemory, Text};
use pgx_io::{MemSink, Sink, StdoutSink, write_all};
use std::alloc::Global;
use std::rt::Files;
use std::{fs, io};

/// `sink ROOM|PIECE|FAILS|TEXT`.
pub fn sink(alloc: Global, room: &str, rest: &str) -> Result<Text, NoMemory> {
    let (piece, rest) = rest.split_once('|').unwrap_or((rest, ""));
    let (fails, text) = rest.split_once('|').unwrap_or((rest, ""));
    let piece = number_of(piece);
    if piece == 0 {
        return Text::from_str(alloc, "no piece");
    }
    let fails = fails_of(alloc, fails)?;
    let mut sink = MemSink::new(alloc, number_of(room), piece, fails)?;
    let mut out = Text::from_str(alloc, ending(&mut sink, text))?;
    out.push("|")?;
    push_bytes(&mut out, sink.bytes())?;
    Ok(out)
}

/// The calls that fail, none where there is a `-`.
fn fails_of(alloc: Global, text: &str) -> Result<List<u32>, NoMemory> {
    if text == "-" {
        return Ok(List::new(alloc));
    }
    numbers_of(alloc, text)
}

/// How writing a text ends.
fn ending<K: Sink>(sink: &mut K, text: &str) -> &'static str {
    match write_all(sink, text.as_bytes()) {
        Ok(()) => "ok",
        Err(_) => "failed",
    }
}

/// `print TEXT`: what comes before the answer is written here.
pub fn print<R: Print>(rt: &R, alloc: Global, text: &str) -> Result<Text, NoMemory> {
    let ending = ending(&mut StdoutSink::new(io::writer(rt)), text);
    let mut out = Text::from_str(alloc, "|")?;
    out.push(ending)?;
    Ok(out)
}

/// `write NAME|TEXT`.
pub fn write<R: Files>(rt: &R, alloc: Global, name: &str, text: &str) -> Result<Text, NoMemory> {
    match fs::create(rt, name) {
        Ok(file) => Text::from_str(alloc, ending(&mut StdoutSink::new(file), text)),
        Err(_) => Text::from_str(alloc, "no such file"),
    }
}
