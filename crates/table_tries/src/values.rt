//! Cases of single values.
use column_types::{
    Cell, FieldFault, Kind, List, NoMemory, Text, compare_values, parse_value, value_text,
};
use journal_text::push_number;
use std::alloc::Global;
use std::cmp::Ordering;

/// The kind that a word of a configuration names.
pub fn kind_of(word: &str) -> Kind {
    match word {
        "integer" => Kind::Integer,
        "long" => Kind::Long,
        "boolean" => Kind::Boolean,
        "local_date" => Kind::Date,
        _ => Kind::Text,
    }
}

pub fn word_of(kind: Kind) -> &'static str {
    match kind {
        Kind::Integer => "integer",
        Kind::Long => "long",
        Kind::Boolean => "boolean",
        Kind::Date => "local_date",
        Kind::Text => "string",
    }
}

/// The value that a case writes, such as `long 7`; NULL where it writes none.
pub fn cell_of(text: &str) -> Cell<'_> {
    let (word, rest) = text.split_once(' ').unwrap_or((text, ""));
    match word {
        "integer" => integer_of(rest),
        "long" => long_of(rest),
        "boolean" => Cell::Boolean(rest == "true"),
        "string" => Cell::Text(rest),
        "local_date" => day_of(rest),
        _ => Cell::Null,
    }
}

fn integer_of(text: &str) -> Cell<'_> {
    match text.parse::<i32>() {
        Ok(number) => Cell::Integer(number),
        Err(_) => Cell::Null,
    }
}

fn long_of(text: &str) -> Cell<'_> {
    match text.parse::<i64>() {
        Ok(number) => Cell::Long(number),
        Err(_) => Cell::Null,
    }
}

/// The day of a number.
fn day_of(text: &str) -> Cell<'_> {
    match text.parse::<i32>() {
        Ok(number) => Cell::Date(number),
        Err(_) => Cell::Null,
    }
}

/// Appends the text of a value.
pub fn push_cell(alloc: Global, out: &mut Text, cell: Cell<'_>) -> Result<(), NoMemory> {
    match cell {
        Cell::Date(day) => {
            if Kind::Date.fits(Cell::Date(day)) {
                value_text(alloc, Cell::Date(day), out)
            } else {
                out.push("no day")
            }
        }
        other => value_text(alloc, other, out),
    }
}

/// What a value is, before its text.
fn push_sort(out: &mut Text, cell: Cell<'_>) -> Result<(), NoMemory> {
    match cell {
        Cell::Null => out.push("null "),
        Cell::Integer(_) => out.push("integer "),
        Cell::Long(_) => out.push("long "),
        Cell::Boolean(_) => out.push("boolean "),
        Cell::Text(_) => out.push("string "),
        Cell::Date(day) => {
            out.push("local_date ")?;
            push_number(out, i64::from(day))?;
            out.push(" ")
        }
    }
}

/// `read KIND TEXT`.
pub fn read(alloc: Global, rest: &str) -> Result<Text, NoMemory> {
    let (kind, text) = rest.split_once(' ').unwrap_or((rest, ""));
    let mut out = Text::new(alloc);
    match parse_value(alloc, kind_of(kind), text) {
        Ok(value) => {
            push_sort(&mut out, value.cell())?;
            push_cell(alloc, &mut out, value.cell())?;
        }
        Err(FieldFault::BadField) => out.push("bad")?,
        Err(FieldFault::NoMemory) => return Err(NoMemory),
    }
    Ok(out)
}

/// `print VALUE`.
pub fn print(alloc: Global, rest: &str) -> Result<Text, NoMemory> {
    let mut out = Text::from_str(alloc, "|")?;
    push_cell(alloc, &mut out, cell_of(rest))?;
    Ok(out)
}

/// `order VALUE|VALUE..`.
pub fn order(alloc: Global, rest: &str) -> Result<Text, NoMemory> {
    let mut cells = List::new(alloc);
    for text in rest.split('|') {
        cells.push(cell_of(text))?;
    }
    signs(alloc, cells.as_slice())
}

/// A line for each value.
fn signs(alloc: Global, cells: &[Cell<'_>]) -> Result<Text, NoMemory> {
    let mut out = Text::new(alloc);
    for cell in cells {
        push_signs(&mut out, *cell, cells)?;
    }
    Ok(out)
}

/// How a value compares with each of the others.
fn push_signs(out: &mut Text, cell: Cell<'_>, others: &[Cell<'_>]) -> Result<(), NoMemory> {
    for other in others {
        out.push(sign_of(compare_values(cell, *other)))?;
    }
    out.push("\n")
}

fn sign_of(order: Ordering) -> &'static str {
    match order {
        Ordering::Less => "<",
        Ordering::Equal => "=",
        Ordering::Greater => ">",
    }
}
