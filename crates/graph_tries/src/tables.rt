//! The tables of a case.
use crate::show::cut;
use column_types::{Kind, List, NoMemory, Text};
use graph_schema::{
    EdgeTable, Keys, Prop, Schema, SchemaFault, VertexTable, all_named, ends_exist,
};
use std::alloc::Global;

/// The place of what is not there.
pub const NOWHERE: u32 = u32::MAX;

/// The schema of the tables of a case. None where a name is no name, or an end is no vertex table.
pub fn schema_of(alloc: Global, case: &str) -> Result<Option<Schema>, SchemaFault> {
    let vertices = vertex_tables(alloc, case)?;
    let edges = edge_tables(alloc, case, vertices.as_slice())?;
    if !all_named(vertices.as_slice(), edges.as_slice())
        || !ends_exist(vertices.as_slice(), edges.as_slice())
    {
        return Ok(None);
    }
    Ok(Some(Schema::new(alloc, keys_of(case), vertices, edges)?))
}

/// Keys differ within each table where a part of the case says so, and else over all tables.
fn keys_of(case: &str) -> Keys {
    for part in case.split(" | ") {
        if part == "keys per table" {
            return Keys::PerTable;
        }
    }
    Keys::Whole
}

fn vertex_tables(alloc: Global, case: &str) -> Result<List<VertexTable>, NoMemory> {
    let mut tables = List::new(alloc);
    for part in case.split(" | ") {
        if let Some(words) = part.strip_prefix("V ") {
            tables.push(vertex_table(alloc, words)?)?;
        }
    }
    Ok(tables)
}

fn vertex_table(alloc: Global, words: &str) -> Result<VertexTable, NoMemory> {
    let (name, props) = cut(words, ' ');
    let name = Text::from_str(alloc, name)?;
    let props = props_of(alloc, props)?;
    Ok(VertexTable { name, props })
}

fn edge_tables(
    alloc: Global,
    case: &str,
    vertices: &[VertexTable],
) -> Result<List<EdgeTable>, NoMemory> {
    let mut tables = List::new(alloc);
    for part in case.split(" | ") {
        if let Some(words) = part.strip_prefix("E ") {
            tables.push(edge_table(alloc, words, vertices)?)?;
        }
    }
    Ok(tables)
}

fn edge_table(alloc: Global, words: &str, vertices: &[VertexTable]) -> Result<EdgeTable, NoMemory> {
    let (name, rest) = cut(words, ' ');
    let (ends, props) = cut(rest, ' ');
    let (source, destination) = cut(ends, '>');
    let name = Text::from_str(alloc, name)?;
    let props = props_of(alloc, props)?;
    Ok(EdgeTable {
        name,
        source: vertex_table_named(vertices, source),
        destination: vertex_table_named(vertices, destination),
        props,
    })
}

fn props_of(alloc: Global, words: &str) -> Result<List<Prop>, NoMemory> {
    let mut props = List::new(alloc);
    for word in words.split(' ') {
        if let Some((name, kind)) = word.split_once(':') {
            props.push(prop_of(alloc, name, kind)?)?;
        }
    }
    Ok(props)
}

fn prop_of(alloc: Global, name: &str, kind: &str) -> Result<Prop, NoMemory> {
    let name = Text::from_str(alloc, name)?;
    Ok(Prop {
        name,
        kind: kind_of(kind),
    })
}

fn kind_of(word: &str) -> Kind {
    match word {
        "integer" => Kind::Integer,
        "long" => Kind::Long,
        "boolean" => Kind::Boolean,
        "local_date" => Kind::Date,
        _ => Kind::Text,
    }
}

// ---- places of names

/// The place of the vertex table of a name.
pub fn vertex_table_named(tables: &[VertexTable], name: &str) -> u32 {
    place_of(tables.iter().position(|table| table.name.as_str() == name))
}

/// The place of the edge table of a name.
pub fn edge_table_named(tables: &[EdgeTable], name: &str) -> u32 {
    place_of(tables.iter().position(|table| table.name.as_str() == name))
}

/// The place of the property of a name.
pub fn prop_named(props: &[Prop], name: &str) -> u32 {
    place_of(props.iter().position(|prop| prop.name.as_str() == name))
}

fn place_of(place: Option<usize>) -> u32 {
    match place {
        Some(place) => u32::try_from(place).unwrap_or(NOWHERE),
        None => NOWHERE,
    }
}
