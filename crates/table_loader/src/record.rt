//! Records as rows.
ghost use Rattle.std.specs.Prelude.{◌≡◌, ◌+◌, ◌≤◌, [], IsTrue, IfOk, OnOk, drop, length};
ghost use Rattle.csv.specs.Records.{fields_of};
ghost use Rattle.table_loader.specs.Fault.{Reads};
ghost use Rattle.csv_records.specs.Texts.{are_texts as texts};
ghost use Rattle.table_loader.specs.Record.{fields_checked, value_at, key_at, values_from, vertex_of, edge_of};

use crate::fault::RecordFault;
use column_types::{FieldFault, Kind, List, NoMemory, Value, parse_value};
use csv::ByteRecord;
use csv_records::{are_texts, text_at};
use graph_model::{EdgeRow, VertexRow};
use graph_schema::Prop;
use std::alloc::Global;

/// 9 where the record has another number of fields, 8 where one of them is not UTF-8.
#[tactic(auto, unfolding(crate::specs::Record::fields_checked))]
fn check_fields(fields: &ByteRecord, count: usize) -> Result<(), RecordFault>
    ensures reads { Reads result (fields_checked count (fields_of fields.now)) }
    ensures count { OnOk result (length (fields_of fields.now) ≡ count) }
    ensures texts { OnOk result (IsTrue (texts (fields_of fields.now))) }
{
    if fields.len() != count {
        return Err(RecordFault::Bad(9));
    }
    if !are_texts(fields) {
        return Err(RecordFault::Bad(8));
    }
    Ok(())
}

/// The value of a field, 10 where it writes none.
#[tactic(auto, unfolding(crate::specs::Record::value_at))]
fn read_value(
    alloc: Global,
    kind: Kind,
    fields: &ByteRecord,
    place: usize,
) -> Result<Value, RecordFault>
    requires { IsTrue (texts (fields_of fields.now)) }
    ensures { Reads result (value_at kind (fields_of fields.now) place) }
{
    let Some(text) = text_at(fields, place) else {
        return Err(RecordFault::Bad(10));
    };
    match parse_value(alloc, kind, text) {
        Ok(value) => Ok(value),
        Err(FieldFault::BadField) => Err(RecordFault::Bad(10)),
        Err(FieldFault::NoMemory) => Err(RecordFault::NoMemory),
    }
}

/// The key that a field writes, 10 where it writes none.
#[tactic(auto, unfolding(crate::specs::Record::key_at))]
fn read_key(alloc: Global, fields: &ByteRecord, place: usize) -> Result<i64, RecordFault>
    requires { IsTrue (texts (fields_of fields.now)) }
    ensures { Reads result (key_at (fields_of fields.now) place) }
{
    match read_value(alloc, Kind::Long, fields, place)? {
        Value::Long(key) => Ok(key),
        _ => Err(RecordFault::Bad(10)),
    }
}

/// An empty list with room for so many values.
fn values_with_room(alloc: Global, count: usize) -> Result<List<Value>, NoMemory>
    ensures { IfOk result (λ values. values ≡ []) }
{
    Ok(List::from_vec(Vec::with_capacity(alloc, count)?))
}

/// The fields from a place on as values of these properties, 10 where one writes no value of its kind.
fn read_values(
    alloc: Global,
    props: &[Prop],
    fields: &ByteRecord,
    first: usize,
) -> Result<List<Value>, RecordFault>
    requires texts { IsTrue (texts (fields_of fields.now)) }
    requires first { first ≤ 3 }
    requires count { length (fields_of fields.now) ≡ length props.now + first }
    ensures { Reads result (values_from props.now (fields_of fields.now) first) }
{
    let mut values = values_with_room(alloc, props.len())?;
    for (i, prop) in props.iter().enumerate() {
        let value = read_value(alloc, prop.kind, fields, first + i)?;
        values.push(value)?;
    }
    Ok(values)
}

/// The vertex of a record of a table with these properties.
#[tactic(auto, unfolding(crate::specs::Record::vertex_of))]
pub(crate) fn read_vertex(
    alloc: Global,
    props: &[Prop],
    fields: &ByteRecord,
) -> Result<VertexRow, RecordFault>
    ensures { Reads result (vertex_of props.now (fields_of fields.now)) }
{
    check_fields(fields, props.len() + 1)?;
    let key = read_key(alloc, fields, 0)?;
    let values = read_values(alloc, props, fields, 1)?;
    Ok(VertexRow { key, values })
}

/// The edge of a record of a table with these properties.
#[tactic(auto, unfolding(crate::specs::Record::edge_of))]
pub(crate) fn read_edge(
    alloc: Global,
    props: &[Prop],
    fields: &ByteRecord,
) -> Result<EdgeRow, RecordFault>
    ensures { Reads result (edge_of props.now (fields_of fields.now)) }
{
    check_fields(fields, props.len() + 3)?;
    let key = read_key(alloc, fields, 0)?;
    let source = read_key(alloc, fields, 1)?;
    let destination = read_key(alloc, fields, 2)?;
    let values = read_values(alloc, props, fields, 3)?;
    Ok(EdgeRow {
        key,
        source,
        destination,
        values,
    })
}
