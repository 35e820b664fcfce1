//! The fields of a JSON object.
ghost use Rattle.std.specs.Prelude.{◌≡◌, ◌≤◌, IfOk, IsTrue, length, option_map};
ghost use Rattle.std.specs.List.{list_all};
ghost use Rattle.serde_json.specs.View.{view, items_view};
ghost use Rattle.graph_schema.specs.Name.{is_name as name_test};
ghost use Rattle.graph_config.specs.Fault.{Gives, GivesBy};
ghost use Rattle.graph_config.specs.Field.{is_file_byte as file_byte_test, is_file_name as file_name_test, kind_of, object_at, list_at, optional_list_at, string_at, name_at, file_at, kind_at, version_of, keys_of as keys_of_version, top_list_at};

use crate::ConfigFault;
use crate::path::{fault_at, field_fault};
use column_types::{Kind, Text};
use graph_schema::{Keys, is_name};
use serde_json::Value;
use std::alloc::Global;

/// 5 where the value is no object.
#[tactic(auto, using(crate::proofs::Faults::fails_at), unfolding(crate::specs::Field::object_at))]
pub fn expect_object(alloc: Global, path: &str, value: &Value) -> Result<(), ConfigFault>
    ensures { Gives result (object_at path.now (view value.now)) }
{
    if !value.is_object() {
        return Err(fault_at(alloc, 5, path));
    }
    Ok(())
}

/// The items of a list of at most so many.
#[tactic(auto, using(crate::proofs::Faults::fails_at, crate::proofs::Faults::items_len_view), unfolding(crate::specs::Field::list_at))]
fn list<'a>(
    alloc: Global,
    path: &str,
    most: usize,
    value: &'a Value,
) -> Result<&'a [Value], ConfigFault>
    ensures gives { GivesBy (λ items. items_view items.now) result (list_at path.now most (view value.now)) }
    ensures few { IfOk result (λ items. length items.now ≤ most) }
{
    let Some(list) = value.as_array() else {
        return Err(fault_at(alloc, 5, path));
    };
    if list.len() > most {
        return Err(fault_at(alloc, 52, path));
    }
    Ok(list.as_slice())
}

/// The items of a list that may be missing.
#[tactic(auto, unfolding(crate::specs::Field::optional_list_at))]
pub fn optional_list<'a>(
    alloc: Global,
    path: &str,
    most: usize,
    value: Option<&'a Value>,
) -> Result<&'a [Value], ConfigFault>
    ensures gives { GivesBy (λ items. items_view items.now) result (optional_list_at path.now most (option_map (λ v. view v.now) value.entry)) }
    ensures few { IfOk result (λ items. length items.now ≤ most) }
{
    match value {
        Some(value) => list(alloc, path, most, value),
        None => Ok(&[]),
    }
}

/// A list that must be there, in a field of the whole.
#[tactic(auto, using(crate::proofs::Faults::fails_at), unfolding(crate::specs::Field::top_list_at))]
pub fn top_list<'a>(
    alloc: Global,
    field: &str,
    most: usize,
    top: &'a Value,
) -> Result<&'a [Value], ConfigFault>
    ensures gives { GivesBy (λ items. items_view items.now) result (top_list_at field.now most (view top.now)) }
    ensures few { IfOk result (λ items. length items.now ≤ most) }
{
    let Some(value) = top.get(field) else {
        return Err(fault_at(alloc, 4, field));
    };
    list(alloc, field, most, value)
}

/// 5 where there is a version other than the numbers 1 and 2.
#[tactic(auto, using(crate::proofs::Faults::fails_at), unfolding(crate::specs::Field::version_of))]
pub fn expect_version(alloc: Global, version: Option<&Value>) -> Result<(), ConfigFault>
    ensures { Gives result (version_of (option_map (λ v. view v.now) version.entry)) }
{
    let Some(version) = version else {
        return Ok(());
    };
    match version.as_u64() {
        Some(1 | 2) => Ok(()),
        _ => Err(fault_at(alloc, 5, "version")),
    }
}

/// Where keys differ: within each table where the version is 2, and else over all tables.
pub fn keys_of(version: Option<&Value>) -> Keys
    ensures { result ≡ keys_of_version (option_map (λ v. view v.now) version.entry) }
{
    let Some(version) = version else {
        return Keys::Whole;
    };
    match version.as_u64() {
        Some(2) => Keys::PerTable,
        _ => Keys::Whole,
    }
}

/// A field that is a text.
#[tactic(auto, using(crate::proofs::Faults::fails_at), unfolding(crate::specs::Field::string_at))]
fn string<'a>(
    alloc: Global,
    path: &str,
    field: &str,
    object: &'a Value,
) -> Result<&'a str, ConfigFault>
    ensures { GivesBy (λ s. s.now) result (string_at path.now field.now (view object.now)) }
{
    let Some(value) = object.get(field) else {
        return Err(field_fault(alloc, 4, path, field));
    };
    let Some(text) = value.as_str() else {
        return Err(field_fault(alloc, 5, path, field));
    };
    Ok(text)
}

/// A field that is a name.
#[tactic(auto, using(crate::proofs::Faults::fails_at), unfolding(crate::specs::Field::name_at))]
pub fn name(alloc: Global, path: &str, field: &str, object: &Value) -> Result<Text, ConfigFault>
    ensures gives { Gives result (name_at path.now field.now (view object.now)) }
    ensures named { IfOk result (λ text. IsTrue (name_test text)) }
{
    let text = string(alloc, path, field, object)?;
    if !is_name(text) {
        return Err(field_fault(alloc, 5, path, field));
    }
    Ok(Text::from_str(alloc, text)?)
}

fn is_file_byte(byte: u8) -> bool
    ensures { result ≡ file_byte_test byte }
{
    byte.is_ascii_alphanumeric() || byte == b'_' || byte == b'.' || byte == b'-' || byte == b'/'
}

fn are_file_bytes(bytes: &[u8]) -> bool
    ensures { result ≡ list_all file_byte_test bytes.now }
{
    bytes.iter().all(|byte| is_file_byte(*byte))
}

fn is_file_name(text: &str) -> bool
    ensures { result ≡ file_name_test text.now }
{
    1 <= text.len() && text.len() <= 255 && are_file_bytes(text.as_bytes())
}

/// A field that is a file name.
#[tactic(auto, using(crate::proofs::Faults::fails_at), unfolding(crate::specs::Field::file_at))]
pub fn file(alloc: Global, path: &str, field: &str, object: &Value) -> Result<Text, ConfigFault>
    ensures gives { Gives result (file_at path.now field.now (view object.now)) }
    ensures named { IfOk result (λ text. IsTrue (file_name_test text)) }
{
    let text = string(alloc, path, field, object)?;
    if !is_file_name(text) {
        return Err(field_fault(alloc, 5, path, field));
    }
    Ok(Text::from_str(alloc, text)?)
}

fn kind_named(word: &str) -> Option<Kind>
    ensures { result ≡ kind_of word.now }
{
    if word == "integer" {
        Some(Kind::Integer)
    } else if word == "long" {
        Some(Kind::Long)
    } else if word == "boolean" {
        Some(Kind::Boolean)
    } else if word == "string" {
        Some(Kind::Text)
    } else if word == "local_date" {
        Some(Kind::Date)
    } else {
        None
    }
}

/// A field that names a kind.
#[tactic(auto, using(crate::proofs::Faults::fails_at), unfolding(crate::specs::Field::kind_at))]
pub fn kind(alloc: Global, path: &str, field: &str, object: &Value) -> Result<Kind, ConfigFault>
    ensures { Gives result (kind_at path.now field.now (view object.now)) }
{
    let word = string(alloc, path, field, object)?;
    match kind_named(word) {
        Some(kind) => Ok(kind),
        None => Err(field_fault(alloc, 5, path, field)),
    }
}
