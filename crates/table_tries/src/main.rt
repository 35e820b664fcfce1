//! Tries values, schemas, configurations and tables: a case a line, and the answer to it on the same line of what is written.
//!
//! A line that begins with `== ` is a heading and is written as it is. Every other line is a word and what it is asked about:
//!
//! | case | what is answered |
//! |---|---|
//! | `read KIND TEXT` | the value that the text of a field writes: its kind, for a day its number, and its text; else `bad` |
//! | `print VALUE` | the text of the value, behind a bar that stands there before |
//! | `order VALUE\|VALUE..` | for each value in turn how it compares with each of them: `<`, `=` or `>` |
//! | `column KIND VALUE\|VALUE` | a column of the two values: its kind, its length and its values |
//! | `list A\|B\|C\|D\|E` | a list of the numbers A, grown by B, C and D in three ways; its copy; then with E put into a spare place |
//! | `shared NUMBERS` | a shared list as its second holder sees it, and its length as its third does |
//! | `keys TEXT\|TEXT NUMBER..` | what maps of the texts and numbers hold for the first text |
//! | `name TEXT` | whether it is a name |
//! | `schema TABLES\|TABLES` | the schema of vertex tables and edge tables, or their first fault |
//! | `config JSON` | the tables that a configuration names, with their files, or its first fault |
//! | `tables CONFIG\|FILE..` | the text of the snapshot of the graph of table files, or the first fault |
//! | `changes TABLES\|TABLES\|ROWS` | the changes that rows write, for graphs of these tables, or the first row with a fault |
//! | `inline LINES` | the text of the snapshot of the graph of `v KEY` and `e KEY SOURCE DESTINATION`, or the first fault |
//!
//! A KIND is a word of a configuration, such as `local_date`. A VALUE is `null` or a kind and a value, where a day is told by
//! its number. TABLES stand between commas, each a name and properties such as `V a:long b:string`; an edge table goes from
//! the first vertex table to itself where no word such as `0/1` says otherwise. A CONFIG is JSON, or `people` or `names` for
//! one of the two that `graphs.rt` has. What is answered about tables tells each behind a bar: `v`, its name, its file and its
//! properties, or `e`, its name, its file, its two end tables and its properties.
//!
//! In a case `~` is a line feed, `%` a carriage return, `@` a byte order mark, and in a configuration and in files `^` the byte
//! 255. `<3 p#,>` is `p0,p1,p2,`. In an answer `~` is a line feed, and more than 40 equal characters are written as `<41 x>`.
#![tactic(auto)]

mod case;
mod changes;
mod column;
mod graphs;
mod lists;
mod schema;
mod values;

use column_types::{NoMemory, Text};
use std::alloc::Global;
use std::io;
use std::thread::Threads;

fn main(rt: HostRuntime) -> io::Result<()> {
    for line in rt.lines(rt.alloc()) {
        let line = line?;
        match answer(&rt, rt.alloc(), line.as_str()) {
            Ok(text) => println!(rt; "{}", text.as_str())?,
            Err(NoMemory) => println!(rt; "out of memory")?,
        }
    }
    Ok(())
}

/// What is written for a line.
fn answer<R: Threads + Sync>(rt: &R, alloc: Global, line: &str) -> Result<Text, NoMemory> {
    if line.starts_with("== ") {
        return Text::from_str(alloc, line);
    }
    let case = case::meant(alloc, line)?;
    let told = told(rt, alloc, case.as_str())?;
    case::shortened(alloc, told.as_str())
}

/// The answer to a case.
fn told<R: Threads + Sync>(rt: &R, alloc: Global, case: &str) -> Result<Text, NoMemory> {
    let (word, rest) = case.split_once(' ').unwrap_or((case, ""));
    match word {
        "read" => values::read(alloc, rest),
        "print" => values::print(alloc, rest),
        "order" => values::order(alloc, rest),
        "column" => column::column(rt, alloc, rest),
        "list" => lists::list(alloc, rest),
        "shared" => lists::shared(alloc, rest),
        "keys" => lists::keys(alloc, rest),
        "name" => schema::name(alloc, rest),
        "schema" => schema::schema(alloc, rest),
        "config" => graphs::config(alloc, rest),
        "tables" => graphs::tables(rt, alloc, rest),
        "inline" => graphs::inline(rt, alloc, rest),
        "changes" => changes::changes(alloc, rest),
        _ => Text::from_str(alloc, "no such word"),
    }
}
