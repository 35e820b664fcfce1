//! Cases of names and of schemas.
use crate::values::{kind_of, word_of};
use column_types::{List, NoMemory, Text};
use graph_schema::{
    EdgeTable, Keys, Prop, Schema, SchemaFault, VertexTable, all_named, ends_exist, is_name,
};
use journal_text::push_count;
use std::alloc::Global;

/// `name TEXT`.
pub fn name(alloc: Global, text: &str) -> Result<Text, NoMemory> {
    Text::from_str(alloc, if is_name(text) { "yes" } else { "no" })
}

/// `schema TABLES|TABLES`.
pub fn schema(alloc: Global, rest: &str) -> Result<Text, NoMemory> {
    let (vertices, edges) = rest.split_once('|').unwrap_or((rest, ""));
    told(
        alloc,
        vertex_tables(alloc, vertices)?,
        edge_tables(alloc, edges)?,
    )
}

/// The schema of vertex tables and edge tables, none where they have a fault.
pub fn schema_of(alloc: Global, vertices: &str, edges: &str) -> Result<Option<Schema>, NoMemory> {
    let vertices = vertex_tables(alloc, vertices)?;
    let edges = edge_tables(alloc, edges)?;
    if !all_named(vertices.as_slice(), edges.as_slice())
        || !ends_exist(vertices.as_slice(), edges.as_slice())
    {
        return Ok(None);
    }
    match Schema::new(alloc, Keys::Whole, vertices, edges) {
        Ok(schema) => Ok(Some(schema)),
        Err(SchemaFault::NoMemory) => Err(NoMemory),
        Err(SchemaFault::At { .. }) => Ok(None),
    }
}

/// The schema of tables, or their first fault.
fn told(
    alloc: Global,
    vertices: List<VertexTable>,
    edges: List<EdgeTable>,
) -> Result<Text, NoMemory> {
    if !all_named(vertices.as_slice(), edges.as_slice()) {
        return Text::from_str(alloc, "no name");
    }
    if !ends_exist(vertices.as_slice(), edges.as_slice()) {
        return Text::from_str(alloc, "no end");
    }
    match Schema::new(alloc, Keys::Whole, vertices, edges) {
        Ok(schema) => shown(alloc, &schema),
        Err(SchemaFault::At { number, path }) => fault(alloc, number, path.as_str()),
        Err(SchemaFault::NoMemory) => Err(NoMemory),
    }
}

/// The number of a fault, and its path where it has one.
pub fn fault(alloc: Global, number: u32, path: &str) -> Result<Text, NoMemory> {
    let mut out = Text::from_str(alloc, "fault ")?;
    push_count(&mut out, u64::from(number))?;
    if !path.is_empty() {
        out.push(" ")?;
        out.push(path)?;
    }
    Ok(out)
}

/// The tables of a schema's copy.
fn shown(alloc: Global, schema: &Schema) -> Result<Text, NoMemory> {
    let copy = schema.clone()?;
    let mut out = Text::from_str(
        alloc,
        if copy == *schema {
            "ok"
        } else {
            "copy differs"
        },
    )?;
    push_tables(&mut out, &copy, &[])?;
    Ok(out)
}

// ---- tables that a case writes

fn vertex_tables(alloc: Global, text: &str) -> Result<List<VertexTable>, NoMemory> {
    let mut tables = List::new(alloc);
    for table in text.split(',') {
        if !table.is_empty() {
            tables.push(vertex_table(alloc, table)?)?;
        }
    }
    Ok(tables)
}

fn edge_tables(alloc: Global, text: &str) -> Result<List<EdgeTable>, NoMemory> {
    let mut tables = List::new(alloc);
    for table in text.split(',') {
        if !table.is_empty() {
            tables.push(edge_table(alloc, table)?)?;
        }
    }
    Ok(tables)
}

fn vertex_table(alloc: Global, text: &str) -> Result<VertexTable, NoMemory> {
    Ok(VertexTable {
        name: table_name(alloc, text)?,
        props: props_of(alloc, text)?,
    })
}

fn edge_table(alloc: Global, text: &str) -> Result<EdgeTable, NoMemory> {
    let (source, destination) = ends_of(text);
    Ok(EdgeTable {
        name: table_name(alloc, text)?,
        source,
        destination,
        props: props_of(alloc, text)?,
    })
}

/// The first word of a table.
fn table_name(alloc: Global, text: &str) -> Result<Text, NoMemory> {
    let (name, _) = text.split_once(' ').unwrap_or((text, ""));
    Text::from_str(alloc, name)
}

/// The places of the end tables of an edge table.
fn ends_of(text: &str) -> (u32, u32) {
    for word in text.split(' ') {
        if let Some((source, destination)) = word.split_once('/') {
            return (place_of(source), place_of(destination));
        }
    }
    (0, 0)
}

fn place_of(word: &str) -> u32 {
    word.parse::<u32>().unwrap_or(0)
}

/// The properties of a table: its words with a colon.
fn props_of(alloc: Global, text: &str) -> Result<List<Prop>, NoMemory> {
    let mut props = List::new(alloc);
    for word in text.split(' ') {
        if let Some((name, kind)) = word.split_once(':') {
            props.push(prop(alloc, name, kind)?)?;
        }
    }
    Ok(props)
}

fn prop(alloc: Global, name: &str, kind: &str) -> Result<Prop, NoMemory> {
    Ok(Prop {
        name: Text::from_str(alloc, name)?,
        kind: kind_of(kind),
    })
}

// ---- tables in an answer

/// Appends the tables of a schema, each with the next of the files where there is one.
pub fn push_tables(out: &mut Text, schema: &Schema, files: &[Text]) -> Result<(), NoMemory> {
    let mut files = files.iter();
    for table in schema.vertices() {
        push_name(out, " | v ", &table.name, files.next())?;
        push_props(out, table.props.as_slice())?;
    }
    for table in schema.edges() {
        push_name(out, " | e ", &table.name, files.next())?;
        push_end(out, schema.vertices(), table.source)?;
        push_end(out, schema.vertices(), table.destination)?;
        push_props(out, table.props.as_slice())?;
    }
    Ok(())
}

fn push_name(out: &mut Text, sort: &str, name: &Text, file: Option<&Text>) -> Result<(), NoMemory> {
    out.push(sort)?;
    out.push(name.as_str())?;
    if let Some(file) = file {
        out.push(" ")?;
        out.push(file.as_str())?;
    }
    Ok(())
}

fn push_end(out: &mut Text, vertices: &[VertexTable], place: u32) -> Result<(), NoMemory> {
    out.push(" ")?;
    match vertices.get(place as usize) {
        Some(table) => out.push(table.name.as_str()),
        None => out.push("none"),
    }
}

fn push_props(out: &mut Text, props: &[Prop]) -> Result<(), NoMemory> {
    for prop in props {
        out.push(" ")?;
        out.push(prop.name.as_str())?;
        out.push(":")?;
        out.push(word_of(prop.kind))?;
    }
    Ok(())
}
