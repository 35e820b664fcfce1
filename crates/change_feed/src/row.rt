//! Rows as changes.
ghost use Rattle.std.specs.Prelude.{◌≡◌, ◌+◌, ◌≤◌, IsTrue, OnOk, length, position, slice_get, option_and_then};
ghost use Rattle.csv.specs.Records.{field_at, fields_of};
ghost use Rattle.graph_model.specs.Graph.{vertex_table_props, edge_table_props};
ghost use Rattle.change_feed.specs.Fault.{Reads};
ghost use Rattle.csv_records.specs.Texts.{are_texts};
ghost use Rattle.change_feed.specs.Row.{verb_of as verb_written, verb_at, is_vertex_table, is_edge_table, table_named as named, table_at, props_of as props_due, fields_due as due, count_checked, is_prop, prop_at, value_of_prop, setting_of, inserted_vertex, inserted_edge, change_in, change_of};

use crate::fault::{RowCause, RowFault};
use crate::fields::{check_texts, read_key, read_value, read_values};
use crate::setting::Setting;
use crate::verb::{Verb, verb_of};
use column_types::Value;
use csv::ByteRecord;
use csv_records::text_at;
use graph_model::{Change, EdgeTable, Prop, Schema, VertexTable};
use std::alloc::Global;

// ---- word, table and number of fields

fn verb_written(fields: &ByteRecord) -> Option<Verb>
    requires { IsTrue (are_texts (fields_of fields.now)) }
    ensures { result ≡ option_and_then verb_written (field_at (fields_of fields.now) 0) }
{
    verb_of(text_at(fields, 0)?)
}

/// The word of a row, `Word` where it has none.
#[tactic(auto, unfolding(crate::specs::Row::verb_at))]
fn read_verb(fields: &ByteRecord) -> Result<Verb, RowFault>
    requires { IsTrue (are_texts (fields_of fields.now)) }
    ensures { Reads result (verb_at (fields_of fields.now)) }
{
    match verb_written(fields) {
        Some(verb) => Ok(verb),
        None => Err(RowFault::Bad(RowCause::Word)),
    }
}

fn vertex_table(tables: &[VertexTable], name: &str) -> Option<usize>
    ensures { result ≡ position (is_vertex_table name.now) tables.now }
{
    tables.iter().position(|table| table.name.as_str() == name)
}

fn edge_table(tables: &[EdgeTable], name: &str) -> Option<usize>
    ensures { result ≡ position (is_edge_table name.now) tables.now }
{
    tables.iter().position(|table| table.name.as_str() == name)
}

/// The place of the table of a name, among those that a word speaks of.
fn table_named(schema: &Schema, verb: Verb, name: &str) -> Option<usize>
    ensures { result ≡ named schema.now verb name.now }
{
    match verb {
        Verb::InsertVertex | Verb::DeleteVertex | Verb::SetVertex => {
            vertex_table(schema.vertices(), name)
        }
        Verb::InsertEdge | Verb::DeleteEdge | Verb::SetEdge => edge_table(schema.edges(), name),
    }
}

fn table_written(schema: &Schema, verb: Verb, fields: &ByteRecord) -> Option<usize>
    requires { IsTrue (are_texts (fields_of fields.now)) }
    ensures { result ≡ option_and_then (named schema.now verb) (field_at (fields_of fields.now) 1) }
{
    table_named(schema, verb, text_at(fields, 1)?)
}

/// The table of a row, `Table` where it has none.
#[tactic(auto, unfolding(crate::specs::Row::table_at))]
fn read_table(schema: &Schema, verb: Verb, fields: &ByteRecord) -> Result<u32, RowFault>
    requires { IsTrue (are_texts (fields_of fields.now)) }
    ensures { Reads result (table_at schema.now verb (fields_of fields.now)) }
{
    schema.sound();
    match table_written(schema, verb, fields) {
        Some(table) => Ok(table as u32),
        None => Err(RowFault::Bad(RowCause::Table)),
    }
}

fn vertex_props(tables: &[VertexTable], table: u32) -> &[Prop]
    ensures { result.now ≡ vertex_table_props (slice_get tables.now table) }
{
    match tables.get(table as usize) {
        Some(shape) => shape.props.as_slice(),
        None => &[],
    }
}

fn edge_props(tables: &[EdgeTable], table: u32) -> &[Prop]
    ensures { result.now ≡ edge_table_props (slice_get tables.now table) }
{
    match tables.get(table as usize) {
        Some(shape) => shape.props.as_slice(),
        None => &[],
    }
}

/// The properties of a table.
fn props_of(schema: &Schema, verb: Verb, table: u32) -> &[Prop]
    ensures { result.now ≡ props_due schema.now verb table }
{
    match verb {
        Verb::InsertVertex | Verb::DeleteVertex | Verb::SetVertex => {
            vertex_props(schema.vertices(), table)
        }
        Verb::InsertEdge | Verb::DeleteEdge | Verb::SetEdge => edge_props(schema.edges(), table),
    }
}

/// How many fields a row has.
fn fields_due(verb: Verb, props: &[Prop]) -> usize
    ensures { result ≡ due verb (length props.now) }
{
    match verb {
        Verb::InsertVertex => props.len() + 3,
        Verb::InsertEdge => props.len() + 5,
        Verb::DeleteVertex | Verb::DeleteEdge => 3,
        Verb::SetVertex | Verb::SetEdge => 5,
    }
}

/// `Count` where a row has another number of fields.
#[tactic(auto, unfolding(crate::specs::Row::count_checked))]
fn check_count(verb: Verb, props: &[Prop], fields: &ByteRecord) -> Result<(), RowFault>
    ensures reads { Reads result (count_checked verb (length props.now) (fields_of fields.now)) }
    ensures count { OnOk result (length (fields_of fields.now) ≡ due verb (length props.now)) }
{
    if fields.len() != fields_due(verb, props) {
        return Err(RowFault::Bad(RowCause::Count));
    }
    Ok(())
}

// ---- the change

fn prop_named(props: &[Prop], name: &str) -> Option<usize>
    ensures { result ≡ position (is_prop name.now) props.now }
{
    props.iter().position(|prop| prop.name.as_str() == name)
}

fn prop_written(props: &[Prop], fields: &ByteRecord) -> Option<usize>
    requires { IsTrue (are_texts (fields_of fields.now)) }
    ensures { result ≡ option_and_then (λ name. position (is_prop name) props.now) (field_at (fields_of fields.now) 3) }
{
    prop_named(props, text_at(fields, 3)?)
}

/// The property that a row names, `Prop` where it names none.
#[tactic(auto, unfolding(crate::specs::Row::prop_at))]
fn read_prop(props: &[Prop], fields: &ByteRecord) -> Result<u32, RowFault>
    requires texts { IsTrue (are_texts (fields_of fields.now)) }
    requires few { length props.now ≤ 64 }
    ensures { Reads result (prop_at props.now (fields_of fields.now)) }
{
    match prop_written(props, fields) {
        Some(place) => Ok(place as u32),
        None => Err(RowFault::Bad(RowCause::Prop)),
    }
}

/// The value that a row sets a property to, `Field` where it is none of its kind.
fn read_set_value(
    alloc: Global,
    props: &[Prop],
    prop: u32,
    fields: &ByteRecord,
) -> Result<Value, RowFault>
    requires { IsTrue (are_texts (fields_of fields.now)) }
    ensures { Reads result (value_of_prop (slice_get props.now prop) (fields_of fields.now)) }
{
    match props.get(prop as usize) {
        Some(there) => read_value(alloc, there.kind, fields, 4),
        None => Err(RowFault::Bad(RowCause::Field)),
    }
}

/// What a row sets.
#[tactic(auto, unfolding(crate::specs::Row::setting_of))]
fn read_setting(alloc: Global, props: &[Prop], fields: &ByteRecord) -> Result<Setting, RowFault>
    requires texts { IsTrue (are_texts (fields_of fields.now)) }
    requires few { length props.now ≤ 64 }
    ensures { Reads result (setting_of props.now (fields_of fields.now)) }
{
    let prop = read_prop(props, fields)?;
    let key = read_key(alloc, fields, 2)?;
    let value = read_set_value(alloc, props, prop, fields)?;
    Ok(Setting { key, prop, value })
}

#[tactic(auto, unfolding(crate::specs::Row::inserted_vertex))]
fn read_vertex(
    alloc: Global,
    table: u32,
    props: &[Prop],
    fields: &ByteRecord,
) -> Result<Change, RowFault>
    requires texts { IsTrue (are_texts (fields_of fields.now)) }
    requires count { length (fields_of fields.now) ≡ length props.now + 3 }
    ensures { Reads result (inserted_vertex table props.now (fields_of fields.now)) }
{
    let key = read_key(alloc, fields, 2)?;
    let values = read_values(alloc, props, fields, 3)?;
    Ok(Change::InsertVertex { table, key, values })
}

#[tactic(auto, unfolding(crate::specs::Row::inserted_edge))]
fn read_edge(
    alloc: Global,
    table: u32,
    props: &[Prop],
    fields: &ByteRecord,
) -> Result<Change, RowFault>
    requires texts { IsTrue (are_texts (fields_of fields.now)) }
    requires count { length (fields_of fields.now) ≡ length props.now + 5 }
    ensures { Reads result (inserted_edge table props.now (fields_of fields.now)) }
{
    let key = read_key(alloc, fields, 2)?;
    let source = read_key(alloc, fields, 3)?;
    let destination = read_key(alloc, fields, 4)?;
    let values = read_values(alloc, props, fields, 5)?;
    Ok(Change::InsertEdge {
        table,
        key,
        source,
        destination,
        values,
    })
}

/// The change of a word and a table with these properties.
#[tactic(auto, unfolding(crate::specs::Row::change_in))]
fn read_change(
    alloc: Global,
    verb: Verb,
    table: u32,
    props: &[Prop],
    fields: &ByteRecord,
) -> Result<Change, RowFault>
    requires texts { IsTrue (are_texts (fields_of fields.now)) }
    requires few { length props.now ≤ 64 }
    requires count { length (fields_of fields.now) ≡ due verb (length props.now) }
    ensures { Reads result (change_in verb table props.now (fields_of fields.now)) }
{
    match verb {
        Verb::InsertVertex => read_vertex(alloc, table, props, fields),
        Verb::DeleteVertex => {
            let key = read_key(alloc, fields, 2)?;
            Ok(Change::DeleteVertex { table, key })
        }
        Verb::InsertEdge => read_edge(alloc, table, props, fields),
        Verb::DeleteEdge => {
            let key = read_key(alloc, fields, 2)?;
            Ok(Change::DeleteEdge { table, key })
        }
        Verb::SetVertex => {
            let Setting { key, prop, value } = read_setting(alloc, props, fields)?;
            Ok(Change::SetVertex {
                table,
                key,
                prop,
                value,
            })
        }
        Verb::SetEdge => {
            let Setting { key, prop, value } = read_setting(alloc, props, fields)?;
            Ok(Change::SetEdge {
                table,
                key,
                prop,
                value,
            })
        }
    }
}

/// The change of a row, or its first cause.
#[tactic(auto, unfolding(crate::specs::Row::change_of))]
pub(crate) fn read_row(
    alloc: Global,
    schema: &Schema,
    fields: &ByteRecord,
) -> Result<Change, RowFault>
    ensures { Reads result (change_of schema.now (fields_of fields.now)) }
{
    schema.sound();
    check_texts(fields)?;
    let verb = read_verb(fields)?;
    let table = read_table(schema, verb, fields)?;
    let props = props_of(schema, verb, table);
    check_count(verb, props, fields)?;
    read_change(alloc, verb, table, props, fields)
}
