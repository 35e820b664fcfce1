//! Cases of rows of changes.
use crate::case::bytes_of;
use crate::schema::schema_of;
use crate::values::push_cell;
use change_feed::{FeedFault, RowCause, read_changes};
use column_types::{List, NoMemory, Text, Value};
use graph_model::Change;
use graph_schema::Schema;
use journal_text::{push_count, push_number};
use std::alloc::Global;

/// `changes TABLES|TABLES|ROWS`.
pub fn changes(alloc: Global, rest: &str) -> Result<Text, NoMemory> {
    let (vertices, rest) = rest.split_once('|').unwrap_or((rest, ""));
    let (edges, rows) = rest.split_once('|').unwrap_or((rest, ""));
    match schema_of(alloc, vertices, edges)? {
        Some(schema) => read(alloc, &schema, rows),
        None => Text::from_str(alloc, "no schema"),
    }
}

/// The changes of rows, or the first fault.
fn read(alloc: Global, schema: &Schema, rows: &str) -> Result<Text, NoMemory> {
    let bytes = bytes_of(alloc, rows)?;
    match read_changes(alloc, schema, bytes.as_slice()) {
        Ok(changes) => shown(alloc, changes.as_slice()),
        Err(FeedFault::BadRow { row, cause }) => fault(alloc, row, cause),
        Err(FeedFault::NoMemory) => Err(NoMemory),
    }
}

fn fault(alloc: Global, row: u64, cause: RowCause) -> Result<Text, NoMemory> {
    let mut out = Text::from_str(alloc, "row ")?;
    push_count(&mut out, row)?;
    out.push(match cause {
        RowCause::Utf8 => " utf8",
        RowCause::Word => " word",
        RowCause::Table => " table",
        RowCause::Count => " count",
        RowCause::Prop => " prop",
        RowCause::Field => " field",
    })?;
    Ok(out)
}

/// How many changes there are, and behind a bar each of them with the numbers of its table and of its property.
fn shown(alloc: Global, changes: &[Change]) -> Result<Text, NoMemory> {
    let mut out = Text::from_str(alloc, "ok ")?;
    push_count(&mut out, changes.len() as u64)?;
    for change in changes {
        out.push(" | ")?;
        push_change(alloc, &mut out, change)?;
    }
    Ok(out)
}

fn push_change(alloc: Global, out: &mut Text, change: &Change) -> Result<(), NoMemory> {
    match change {
        Change::InsertVertex { table, key, values } => {
            push_place(out, "iv ", *table, *key)?;
            push_values(alloc, out, values)
        }
        Change::DeleteVertex { table, key } => push_place(out, "dv ", *table, *key),
        Change::InsertEdge {
            table,
            key,
            source,
            destination,
            values,
        } => {
            push_place(out, "ie ", *table, *key)?;
            push_ends(out, *source, *destination)?;
            push_values(alloc, out, values)
        }
        Change::DeleteEdge { table, key } => push_place(out, "de ", *table, *key),
        Change::SetVertex {
            table,
            key,
            prop,
            value,
        } => {
            push_place(out, "sv ", *table, *key)?;
            push_setting(alloc, out, *prop, value)
        }
        Change::SetEdge {
            table,
            key,
            prop,
            value,
        } => {
            push_place(out, "se ", *table, *key)?;
            push_setting(alloc, out, *prop, value)
        }
    }
}

fn push_place(out: &mut Text, word: &str, table: u32, key: i64) -> Result<(), NoMemory> {
    out.push(word)?;
    push_count(out, u64::from(table))?;
    out.push(" ")?;
    push_number(out, key)
}

fn push_ends(out: &mut Text, source: i64, destination: i64) -> Result<(), NoMemory> {
    out.push(" ")?;
    push_number(out, source)?;
    out.push(" ")?;
    push_number(out, destination)
}

fn push_setting(alloc: Global, out: &mut Text, prop: u32, value: &Value) -> Result<(), NoMemory> {
    out.push(" ")?;
    push_count(out, u64::from(prop))?;
    out.push(" ")?;
    push_cell(alloc, out, value.cell())
}

fn push_values(alloc: Global, out: &mut Text, values: &List<Value>) -> Result<(), NoMemory> {
    for value in values.as_slice() {
        out.push(" ")?;
        push_cell(alloc, out, value.cell())?;
    }
    Ok(())
}
