//! Tries the outside of the program: a case a line, and the answer to it on the same line of what is written.
//!
//! A line that begins with `== ` is a heading and is written as it is. Every other line is a word and fields between bars:
//!
//! | case | what is answered |
//! |---|---|
//! | `source PIECE\|FAILS\|TEXT` | what two readings to the end give, of a source of the text that gives at most PIECE bytes a call |
//! | `long PIECE\|LENGTH` | how many bytes a reading of a source of LENGTH bytes gives, or `too long` |
//! | `sink ROOM\|PIECE\|FAILS\|TEXT` | how writing the text ends, and what a sink with so much room has then |
//! | `library FAILS\|PART..` | what looking up each PART that is a name gives; those that are `NAME=TEXT` are the files |
//! | `file NAME` | what looking up a file of the working folder gives |
//! | `open NAME` | what two readings of the open file to its end give |
//! | `print TEXT` | the text, written through the sink of standard output, and how that ends |
//! | `write NAME\|TEXT` | how writing the text to a file ends |
//! | `gate WHO\|NUMBER` | `passed` |
//!
//! FAILS are the numbers of the calls that fail, from 1, between commas; with `-` it is a source or a library that cannot fail.
//! What was read is told as it is, and behind `found` between quotes where it was looked up; in an answer `~` is a line feed.
//! The files of `data/` lie where this program runs.
#![tactic(auto)]

mod library;
mod sink;
mod source;

use column_types::{List, NoMemory, Text};
use pgx_io::{Gate, OpenGate};
use std::alloc::Global;
use std::rt::Files;
use std::thread::Threads;
use std::{io, str};

fn main(rt: HostRuntime) -> io::Result<()> {
    for line in rt.lines(rt.alloc()) {
        let line = line?;
        match answer(&rt, rt.alloc(), line.as_str()) {
            Ok(text) => println!(rt; "{}", text.as_str())?,
            Err(NoMemory) => println!(rt; "out of memory")?,
        }
    }
    Ok(())
}

/// What is written for a line.
fn answer<R: Files + Print + Threads + Sync>(
    rt: &R,
    alloc: Global,
    line: &str,
) -> Result<Text, NoMemory> {
    let (word, rest) = line.split_once(' ').unwrap_or((line, ""));
    let (first, second) = rest.split_once('|').unwrap_or((rest, ""));
    match word {
        "==" => Text::from_str(alloc, line),
        "source" => source::source(alloc, first, second),
        "long" => source::long(alloc, first, second),
        "sink" => sink::sink(alloc, first, second),
        "library" => library::library(alloc, first, second),
        "file" => library::file(alloc, rt, rest),
        "open" => source::open(rt, alloc, rest),
        "print" => sink::print(rt, alloc, rest),
        "write" => sink::write(rt, alloc, first, second),
        "gate" => gate(rt, alloc, number_of(first), number_of(second)),
        _ => Text::from_str(alloc, "no such word"),
    }
}

/// `gate WHO|NUMBER`.
fn gate<R: Threads + Sync>(rt: &R, alloc: Global, who: u32, number: u32) -> Result<Text, NoMemory> {
    OpenGate.pass(rt, who, number);
    Text::from_str(alloc, "passed")
}

fn number_of(word: &str) -> u32 {
    word.parse::<u32>().unwrap_or(0)
}

/// The numbers between commas.
fn numbers_of(alloc: Global, text: &str) -> Result<List<u32>, NoMemory> {
    let mut numbers = List::new(alloc);
    for word in text.split(',') {
        numbers.push(number_of(word))?;
    }
    Ok(numbers)
}

/// Appends bytes in one line.
fn push_bytes(out: &mut Text, bytes: &[u8]) -> Result<(), NoMemory> {
    match str::from_utf8(bytes) {
        Ok(text) => push_line(out, text),
        Err(_) => out.push("no text"),
    }
}

fn push_line(out: &mut Text, text: &str) -> Result<(), NoMemory> {
    for sign in text.chars() {
        out.push_char(if sign == '\n' { '~' } else { sign })?;
    }
    Ok(())
}
