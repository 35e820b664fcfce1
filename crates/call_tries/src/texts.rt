//! The texts of calls, replies and refusals.
use crate::read_calls::read_call;
use crate::read_replies::{read_refusal, read_reply};
use catalogue::Reply;
use column_types::{List, NoMemory, Text};
use journal_text::{push_ask, push_refusal, push_reply, push_starved};
use std::alloc::Global;

/// The texts of calls, one behind another, each on a line of its own.
pub fn calls(alloc: Global, parts: &str) -> Result<Text, NoMemory> {
    let mut lines = Text::new(alloc);
    for part in parts.split(" | ") {
        match read_call(alloc, part)? {
            Some(ask) => push_ask(&mut lines, &ask)?,
            None => lines.push("no call")?,
        }
        lines.push("\n")?;
    }
    in_one_line(alloc, lines.as_str())
}

/// The lines of replies, one behind another.
pub fn replies(alloc: Global, parts: &str) -> Result<Text, NoMemory> {
    let mut lines = Text::new(alloc);
    for part in parts.split(" | ") {
        push_part_reply(&mut lines, alloc, part)?;
    }
    in_one_line(alloc, lines.as_str())
}

fn push_part_reply(lines: &mut Text, alloc: Global, part: &str) -> Result<(), NoMemory> {
    if part == "NoMemory" {
        return push_starved(lines);
    }
    match read_reply(alloc, part)? {
        Some(reply) => push_reply(lines, &reply, actor_names(alloc)?.as_slice()),
        None => lines.push("no reply\n"),
    }
}

/// The names of the first three actors.
fn actor_names(alloc: Global) -> Result<List<Text>, NoMemory> {
    let mut names = List::new(alloc);
    for name in "alice bob carol".split(' ') {
        names.push(Text::from_str(alloc, name)?)?;
    }
    Ok(names)
}

/// The lines of refusals, one behind another.
pub fn refusals(alloc: Global, parts: &str) -> Result<Text, NoMemory> {
    let mut lines = Text::new(alloc);
    for part in parts.split(" | ") {
        match read_refusal(alloc, part)? {
            Some(refusal) => push_refusal(&mut lines, &refusal)?,
            None => lines.push("no refusal\n")?,
        }
    }
    in_one_line(alloc, lines.as_str())
}

/// A text with `~` for each line feed.
fn in_one_line(alloc: Global, text: &str) -> Result<Text, NoMemory> {
    let mut line = Text::new(alloc);
    for c in text.chars() {
        line.push_char(if c == '\n' { '~' } else { c })?;
    }
    Ok(line)
}

/// Appends the lines of a reply in one, without the spaces before them and the line feed behind them.
pub fn push_bare_reply(text: &mut Text, alloc: Global, reply: &Reply) -> Result<(), NoMemory> {
    let mut line = Text::new(alloc);
    push_reply(&mut line, reply, actor_names(alloc)?.as_slice())?;
    let line = in_one_line(alloc, line.as_str().trim())?;
    text.push(line.as_str())
}

/// Appends an answer, behind a bar where it is not the first.
pub fn push_answer(answers: &mut Text, answer: &str) -> Result<(), NoMemory> {
    if !answers.is_empty() {
        answers.push(" | ")?;
    }
    answers.push(answer)
}
