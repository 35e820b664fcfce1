//! The fields of a row.
ghost use Rattle.std.specs.Prelude.{◌≡◌, ◌+◌, ◌≤◌, [], IsTrue, IfOk, OnOk, drop, length};
ghost use Rattle.csv.specs.Records.{fields_of};
ghost use Rattle.change_feed.specs.Fault.{Reads};
ghost use Rattle.csv_records.specs.Texts.{are_texts as texts};
ghost use Rattle.change_feed.specs.Row.{texts_checked, value_at, key_at, values_from};

use crate::fault::{RowCause, RowFault};
use column_types::{FieldFault, Kind, List, NoMemory, Value, parse_value};
use csv::ByteRecord;
use csv_records::{are_texts, text_at};
use graph_schema::Prop;
use std::alloc::Global;

/// `Utf8` where a field is not UTF-8.
#[tactic(auto, unfolding(crate::specs::Row::texts_checked))]
pub(crate) fn check_texts(fields: &ByteRecord) -> Result<(), RowFault>
    ensures reads { Reads result (texts_checked (fields_of fields.now)) }
    ensures texts { OnOk result (IsTrue (texts (fields_of fields.now))) }
{
    if !are_texts(fields) {
        return Err(RowFault::Bad(RowCause::Utf8));
    }
    Ok(())
}

/// The value of a field, `Field` where it writes none.
#[tactic(auto, unfolding(crate::specs::Row::value_at))]
pub(crate) fn read_value(
    alloc: Global,
    kind: Kind,
    fields: &ByteRecord,
    place: usize,
) -> Result<Value, RowFault>
    requires { IsTrue (texts (fields_of fields.now)) }
    ensures { Reads result (value_at kind (fields_of fields.now) place) }
{
    let Some(text) = text_at(fields, place) else {
        return Err(RowFault::Bad(RowCause::Field));
    };
    match parse_value(alloc, kind, text) {
        Ok(value) => Ok(value),
        Err(FieldFault::BadField) => Err(RowFault::Bad(RowCause::Field)),
        Err(FieldFault::NoMemory) => Err(RowFault::NoMemory),
    }
}

/// The key that a field writes, `Field` where it writes none.
#[tactic(auto, unfolding(crate::specs::Row::key_at))]
pub(crate) fn read_key(alloc: Global, fields: &ByteRecord, place: usize) -> Result<i64, RowFault>
    requires { IsTrue (texts (fields_of fields.now)) }
    ensures { Reads result (key_at (fields_of fields.now) place) }
{
    match read_value(alloc, Kind::Long, fields, place)? {
        Value::Long(key) => Ok(key),
        _ => Err(RowFault::Bad(RowCause::Field)),
    }
}

/// An empty list with room for so many values.
fn values_with_room(alloc: Global, count: usize) -> Result<List<Value>, NoMemory>
    ensures { IfOk result (λ values. values ≡ []) }
{
    Ok(List::from_vec(Vec::with_capacity(alloc, count)?))
}

/// The fields from a place on as values of these properties, `Field` where one writes no value of its kind.
pub(crate) fn read_values(
    alloc: Global,
    props: &[Prop],
    fields: &ByteRecord,
    first: usize,
) -> Result<List<Value>, RowFault>
    requires texts { IsTrue (texts (fields_of fields.now)) }
    requires first { first ≤ 5 }
    requires count { length (fields_of fields.now) ≡ length props.now + first }
    ensures { Reads result (values_from props.now (fields_of fields.now) first) }
{
    let mut values = values_with_room(alloc, props.len())?;
    for (i, prop) in props.iter().enumerate() {
        let value = read_value(alloc, prop.kind, fields, first + i)?;
        values.push(value)?;
    }
    Ok(values)
}
