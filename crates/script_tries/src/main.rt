//! Reads scripts, one a line, and writes what reading each gives. Line n of what is written answers line n of what is read.
//!
//! * `read SCRIPT`: `ok` and the whole script that was read, its parts behind bars. These are each source with its records or
//!   files, the actors, then each phase with its blocks, by their actors' numbers, and their commands, each as its line, a
//!   colon and what it asks. Where the script has a fault: the first line with one, and why.
//! * `count SCRIPT`: `ok` and the numbers of sources, actors, phases and commands, or the first line with a fault.
//! * A line that begins with `==` is a heading, and is written as it is.
//!
//! `text.rt` says how a script is written in one line.
#![tactic(auto)]

mod print;
mod text;

use print::{counts, whole};
use script_read::{Script, ScriptFault, read_script};
use std::alloc::{AllocError, Global};
use std::io;
use text::bytes_of;

fn main(rt: HostRuntime) -> io::Result<()> {
    for line in rt.lines(rt.alloc()) {
        let said = answer(rt.alloc(), line?.as_str())?;
        println!(rt; "{said}")?;
    }
    Ok(())
}

/// What is written of a script that was read.
#[derive(Clone, Copy)]
enum Wanted {
    Whole,
    Counts,
}

/// What answers a line.
fn answer(alloc: Global, line: &str) -> Result<String, AllocError> {
    let (word, script) = line.split_once(' ').unwrap_or((line, ""));
    match word {
        "read" => after_reading(alloc, script, Wanted::Whole),
        "count" => after_reading(alloc, script, Wanted::Counts),
        "==" => String::from_str(alloc, line),
        _ => String::from_str(alloc, "no such case"),
    }
}

/// What reading a script gives.
fn after_reading(alloc: Global, script: &str, wanted: Wanted) -> Result<String, AllocError> {
    let bytes = bytes_of(alloc, script)?;
    if bytes.len() > 16_777_216 {
        return String::from_str(alloc, "too long");
    }
    match read_script(alloc, bytes.as_slice()) {
        Ok(script) => said_of(alloc, &script, wanted),
        Err(ScriptFault::BadLine { line, why }) => format!(in alloc; "line {line} {why:?}"),
        Err(ScriptFault::NoMemory) => String::from_str(alloc, "out of memory"),
    }
}

fn said_of(alloc: Global, script: &Script, wanted: Wanted) -> Result<String, AllocError> {
    match wanted {
        Wanted::Whole => whole(alloc, script),
        Wanted::Counts => counts(alloc, script),
    }
}
