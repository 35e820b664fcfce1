//! Runs the program over cases, one a line, and writes with which status and text each ends. Line n of what is written answers
//! line n of what is read.
//!
//! * A case is fields with ` | ` between them, `run` first; `case.rt` lists them. Its answer is the status and the text that the
//!   program wrote, in which `~` is a line feed.
//! * `let NAME FIELD`: in the lines behind it the field `$NAME` stands for that field. Its answer is `let NAME`.
//! * A line that begins with `==` is a heading, and is written as it is.
//!
//! `text.rt` says how a script, or the text of a file, is written in one line.
#![tactic(auto)]

mod case;
mod text;

use case::{Case, Fault, read_case};
use column_types::NoMemory;
use pgx_io::{MemLibrary, MemSink, MemSource, OpenGate};
use pgx_shell::top;
use std::alloc::{AllocError, Global};
use std::thread::Threads;
use std::{io, str};

/// The most bytes that the program reads in one call, and writes in one call.
const READ_PIECE: u32 = 7;

const WRITE_PIECE: u32 = 10;

fn main(rt: HostRuntime) -> io::Result<()> {
    let mut known = Vec::new(rt.alloc());
    for line in rt.lines(rt.alloc()) {
        let said = answer(&rt, rt.alloc(), &mut known, line?.as_str())?;
        println!(rt; "{said}")?;
    }
    Ok(())
}

/// What answers a line. `known` has the fields that were named, each behind its name.
fn answer<R: Threads + Sync>(
    rt: &R,
    alloc: Global,
    known: &mut Vec<(String, String)>,
    line: &str,
) -> Result<String, AllocError> {
    let (word, rest) = line.split_once(' ').unwrap_or((line, ""));
    match word {
        "run" => after_running(rt, alloc, known.as_slice(), line),
        "let" => after_naming(alloc, known, rest),
        "==" => String::from_str(alloc, line),
        _ => String::from_str(alloc, "no such line"),
    }
}

/// Keeps a named field.
fn after_naming(
    alloc: Global,
    known: &mut Vec<(String, String)>,
    named: &str,
) -> Result<String, AllocError> {
    let (name, field) = named.split_once(' ').unwrap_or((named, ""));
    let kept = (
        String::from_str(alloc, name)?,
        String::from_str(alloc, field)?,
    );
    known.push(kept)?;
    format!(in alloc; "let {name}")
}

/// With what a case ends.
fn after_running<R: Threads + Sync>(
    rt: &R,
    alloc: Global,
    known: &[(String, String)],
    line: &str,
) -> Result<String, AllocError> {
    match ending(rt, alloc, known, line) {
        Ok(said) => Ok(said),
        Err(Fault::NoSuchField) => String::from_str(alloc, "no such field"),
        Err(Fault::NoMemory) => String::from_str(alloc, "out of memory"),
    }
}

fn ending<R: Threads + Sync>(
    rt: &R,
    alloc: Global,
    known: &[(String, String)],
    line: &str,
) -> Result<String, Fault> {
    let case = read_case(alloc, known, line)?;
    Ok(run(rt, alloc, case)?)
}

/// Runs the program over a case.
fn run<R: Threads + Sync>(rt: &R, alloc: Global, case: Case) -> Result<String, NoMemory> {
    let Case {
        words,
        script,
        files,
        source_fails,
        library_fails,
        sink_fails,
        room,
    } = case;
    let mut sink = MemSink::new(alloc, room, WRITE_PIECE, sink_fails)?;
    let mut source = MemSource::new(script, READ_PIECE, source_fails);
    let mut library = MemLibrary::new(files, library_fails);
    let status = top(
        rt,
        alloc,
        words.as_slice(),
        &mut source,
        &mut library,
        &mut sink,
        &OpenGate,
    );
    Ok(shown(alloc, status.code, sink.bytes())?)
}

/// A status and a text in one line.
fn shown(alloc: Global, code: u8, bytes: &[u8]) -> Result<String, AllocError> {
    let mut all = format!(in alloc; "{code}")?;
    match str::from_utf8(bytes) {
        Ok(text) => push_text(&mut all, text)?,
        Err(_) => all.push_str(" what is no text")?,
    }
    Ok(all)
}

fn push_text(all: &mut String, text: &str) -> Result<(), AllocError> {
    if !text.is_empty() {
        all.push(' ')?;
    }
    for c in text.chars() {
        all.push(if c == '\n' { '~' } else { c })?;
    }
    Ok(())
}
