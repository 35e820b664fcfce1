//! Texts of answers.
use column_types::{Cell, Kind, NoMemory, Text, value_text};
use journal_text::{push_count, push_number};
use std::alloc::Global;

/// What stands before the first mark, and what stands after it.
pub fn cut(text: &str, mark: char) -> (&str, &str) {
    text.split_once(mark).unwrap_or((text, ""))
}

/// Appends an answer to those before it.
pub fn push_answer(answers: &mut Text, answer: &str) -> Result<(), NoMemory> {
    if !answers.is_empty() {
        answers.push(" | ")?;
    }
    answers.push(if answer.is_empty() { "none" } else { answer })
}

/// Appends what stands between two items, where there is an item already.
pub fn push_comma(out: &mut Text) -> Result<(), NoMemory> {
    if out.is_empty() {
        return Ok(());
    }
    out.push(", ")
}

/// Lines in one line.
pub fn one_line(alloc: Global, lines: &str) -> Result<Text, NoMemory> {
    let mut line = Text::new(alloc);
    for c in lines.chars() {
        line.push_char(if c == '\n' { '~' } else { c })?;
    }
    Ok(line)
}

/// Appends a value.
pub fn push_value(alloc: Global, out: &mut Text, cell: Cell<'_>) -> Result<(), NoMemory> {
    match cell {
        Cell::Date(day) => {
            if Kind::Date.fits(Cell::Date(day)) {
                return value_text(alloc, Cell::Date(day), out);
            }
            out.push("no day")
        }
        other => value_text(alloc, other, out),
    }
}

/// Appends a position, as `TABLE.PLACE`.
pub fn push_position(out: &mut Text, table: u32, place: u32) -> Result<(), NoMemory> {
    push_count(out, u64::from(table))?;
    out.push(".")?;
    push_count(out, u64::from(place))
}

/// Appends places between brackets.
pub fn push_places(out: &mut Text, places: &[u32]) -> Result<(), NoMemory> {
    out.push(" [")?;
    for (i, place) in places.iter().enumerate() {
        if i > 0 {
            out.push(" ")?;
        }
        push_count(out, u64::from(*place))?;
    }
    out.push("]")
}

// ---- lists of numbers

/// Appends a space, where there is a number already.
fn push_space(out: &mut Text) -> Result<(), NoMemory> {
    if out.is_empty() {
        return Ok(());
    }
    out.push(" ")
}

pub fn counts_text(alloc: Global, counts: &[u64]) -> Result<Text, NoMemory> {
    let mut out = Text::new(alloc);
    for count in counts {
        push_space(&mut out)?;
        push_count(&mut out, *count)?;
    }
    Ok(out)
}

/// Counts, with `-` for none.
pub fn counts_or_none_text(alloc: Global, counts: &[Option<u64>]) -> Result<Text, NoMemory> {
    let mut out = Text::new(alloc);
    for count in counts {
        push_space(&mut out)?;
        match count {
            Some(count) => push_count(&mut out, *count)?,
            None => out.push("-")?,
        }
    }
    Ok(out)
}

/// Numbers, with `-` for none.
pub fn numbers_or_none_text(alloc: Global, numbers: &[Option<i64>]) -> Result<Text, NoMemory> {
    let mut out = Text::new(alloc);
    for number in numbers {
        push_space(&mut out)?;
        match number {
            Some(number) => push_number(&mut out, *number)?,
            None => out.push("-")?,
        }
    }
    Ok(out)
}
