//! The changes of a case.
use crate::show::cut;
use crate::tables::{edge_table_named, prop_named, vertex_table_named};
use column_types::{FieldFault, Kind, List, NoMemory, Text, Value, parse_value};
use graph_model::{ApplyFault, Change, Graph, Prop, Schema};
use std::alloc::Global;

/// The table, and the first and the last key, of the vertices without values that a part writes, if it writes some.
pub fn range_of(schema: &Schema, part: &str) -> Option<(u32, (i64, i64))> {
    let (name, keys) = part.strip_prefix("iv,")?.split_once(',')?;
    let (first, last) = keys.split_once("..")?;
    let first = first.parse::<i64>().ok()?;
    let last = last.parse::<i64>().ok()?;
    Some((vertex_table_named(schema.vertices(), name), (first, last)))
}

/// The change that a part writes, if it writes one.
pub fn change_of(alloc: Global, schema: &Schema, part: &str) -> Result<Option<Change>, NoMemory> {
    let row = part.strip_prefix("put ").unwrap_or(part);
    let (word, fields) = cut(row, ',');
    let (table, fields) = cut(fields, ',');
    let (key, fields) = cut_off(fields);
    let Ok(key) = key.parse::<i64>() else {
        return Ok(None);
    };
    match word {
        "iv" | "dv" | "sv" => change_vertex(alloc, schema, word, table, key, fields),
        "ie" | "de" | "se" => change_edge(alloc, schema, word, table, key, fields),
        _ => Ok(None),
    }
}

fn change_vertex(
    alloc: Global,
    schema: &Schema,
    word: &str,
    name: &str,
    key: i64,
    fields: Option<&str>,
) -> Result<Option<Change>, NoMemory> {
    let table = vertex_table_named(schema.vertices(), name);
    let props = vertex_props(schema, table);
    match word {
        "iv" => {
            let values = values_of(alloc, props, fields)?;
            Ok(Some(Change::InsertVertex { table, key, values }))
        }
        "sv" => {
            let (prop, value) = set_of(alloc, props, fields)?;
            Ok(Some(Change::SetVertex {
                table,
                key,
                prop,
                value,
            }))
        }
        _ => Ok(Some(Change::DeleteVertex { table, key })),
    }
}

fn change_edge(
    alloc: Global,
    schema: &Schema,
    word: &str,
    name: &str,
    key: i64,
    fields: Option<&str>,
) -> Result<Option<Change>, NoMemory> {
    let table = edge_table_named(schema.edges(), name);
    let props = edge_props(schema, table);
    match word {
        "ie" => insert_edge(alloc, props, table, key, fields),
        "se" => {
            let (prop, value) = set_of(alloc, props, fields)?;
            Ok(Some(Change::SetEdge {
                table,
                key,
                prop,
                value,
            }))
        }
        _ => Ok(Some(Change::DeleteEdge { table, key })),
    }
}

fn insert_edge(
    alloc: Global,
    props: &[Prop],
    table: u32,
    key: i64,
    fields: Option<&str>,
) -> Result<Option<Change>, NoMemory> {
    let (source, fields) = cut(fields.unwrap_or(""), ',');
    let (destination, fields) = cut_off(fields);
    let (Ok(source), Ok(destination)) = (source.parse::<i64>(), destination.parse::<i64>()) else {
        return Ok(None);
    };
    let values = values_of(alloc, props, fields)?;
    Ok(Some(Change::InsertEdge {
        table,
        key,
        source,
        destination,
        values,
    }))
}

/// The first field, and the fields after it where there are any.
fn cut_off(fields: &str) -> (&str, Option<&str>) {
    match fields.split_once(',') {
        Some((first, rest)) => (first, Some(rest)),
        None => (fields, None),
    }
}

fn vertex_props(schema: &Schema, table: u32) -> &[Prop] {
    match schema.vertices().get(table as usize) {
        Some(shape) => shape.props.as_slice(),
        None => &[],
    }
}

fn edge_props(schema: &Schema, table: u32) -> &[Prop] {
    match schema.edges().get(table as usize) {
        Some(shape) => shape.props.as_slice(),
        None => &[],
    }
}

// ---- values

fn values_of(alloc: Global, props: &[Prop], fields: Option<&str>) -> Result<List<Value>, NoMemory> {
    let mut values = List::new(alloc);
    if let Some(fields) = fields {
        for (place, field) in fields.split(',').enumerate() {
            values.push(value_of(alloc, kind_at(props, place), field)?)?;
        }
    }
    Ok(values)
}

/// The place of a property, and the value that it is set to.
fn set_of(alloc: Global, props: &[Prop], fields: Option<&str>) -> Result<(u32, Value), NoMemory> {
    let (name, field) = cut(fields.unwrap_or(""), ',');
    let place = prop_named(props, name);
    let value = value_of(alloc, kind_at(props, place as usize), field)?;
    Ok((place, value))
}

fn kind_at(props: &[Prop], place: usize) -> Kind {
    props.get(place).map_or(Kind::Text, |prop| prop.kind)
}

/// The value of a field, which is a text where it is no value of the kind.
fn value_of(alloc: Global, kind: Kind, field: &str) -> Result<Value, NoMemory> {
    let field = with_line_feeds(alloc, field)?;
    match parse_value(alloc, kind, field.as_str()) {
        Ok(value) => Ok(value),
        Err(FieldFault::BadField) => Ok(Value::Text(field)),
        Err(FieldFault::NoMemory) => Err(NoMemory),
    }
}

fn with_line_feeds(alloc: Global, field: &str) -> Result<Text, NoMemory> {
    let mut text = Text::new(alloc);
    for c in field.chars() {
        text.push_char(if c == '~' { '\n' } else { c })?;
    }
    Ok(text)
}

/// Inserts by the calls that take the values over. Any other change is made as ever.
pub fn put(alloc: Global, graph: &mut Graph, change: Change) -> Result<(), ApplyFault> {
    match change {
        Change::InsertVertex { table, key, values } => graph.insert_vertex(table, key, values),
        Change::InsertEdge {
            table,
            key,
            source,
            destination,
            values,
        } => graph.insert_edge(table, key, source, destination, values),
        other => graph.apply(alloc, &other),
    }
}
