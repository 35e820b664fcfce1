//! Reads texts of queries, one case a line, and writes what comes of each. Line n of stdout answers line n of stdin.
//!
//! A line that begins with `== ` is a heading and is written as it is. Another is a word and a text:
//!
//! | case | answer |
//! |---|---|
//! | `read TEXT` | the tree of the query, as [`trees`] and [`queries`] write it |
//! | `copy TEXT` | the tree of a copy of it |
//! | `same TEXT\|TEXT` | whether a copy of an expression equals another one but for their places: `yes` or `no` |
//! | `tokens TEXT` | the kinds and the spans of the tokens, as `Word 0 4, Sign 5 7`, or `none` |
//! | `pieces TEXT` | the sorts of the tokens with their places and meanings, as `Name@0 n, Number@2 7, End@3` |
//! | `deep TEXT` | `read` where a thread with 4 MiB of stack reads the text |
//!
//! In place of the answer `refused 41 at 28` stands where the text has that refusal at that byte. In a text `~` stands for a line
//! feed, `^` for a carriage return, `` ` `` for a tab, and `{3*ab}` for `ababab`. In an answer `~` stands for a line feed, too.
#![tactic(auto)]

mod cuts;
mod queries;
mod readings;
mod texts;
mod trees;

use crate::readings::answer;
use crate::texts::{in_one_line, meant};
use std::alloc::Global;
use std::io;
use std::thread::Threads;

fn main(rt: HostRuntime) -> io::Result<()> {
    for line in rt.lines(rt.alloc()) {
        let said = said(&rt, rt.alloc(), line?.as_str())?;
        println!(rt; "{said}")?;
    }
    Ok(())
}

/// What is written for a line.
fn said<R: Threads>(rt: &R, alloc: Global, line: &str) -> io::Result<String> {
    let (word, text) = line.split_once(' ').unwrap_or((line, ""));
    if word == "==" {
        return Ok(String::from_str(alloc, line)?);
    }
    let text = meant(alloc, text)?;
    let answer = answer(rt, alloc, word, text.as_str())?;
    Ok(in_one_line(alloc, answer.as_str())?)
}
