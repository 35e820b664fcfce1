//! The weights of the edges of a snapshot.
ghost use Rattle.std.specs.Prelude.{◌≡◌, ◌<◌, ◌^◌, All, IfOk, IfErr, IfSome, OnOk, Some, ◌&&◌, length, map, position, slice_get};
ghost use Rattle.std.specs.List.{position_or_len};
ghost use Rattle.graph_model.specs.declared.row.EdgeRow.{EdgeRow};
ghost use Rattle.graph_model.specs.Keys.{rows_at};
ghost use Rattle.graph_model.specs.Graph.{edge_props_at};
ghost use Rattle.graph_snap.specs.Reading.{HasEdge};
ghost use Rattle.column_types.specs.Value.{cell_value};
ghost use Rattle.graph_slots.specs.Meaning.{value_at, edge_prop_values};
ghost use Rattle.column_types.specs.declared.value.Value.TheVariants.{Long};
ghost use Rattle.algo_digraph.specs.DigraphOf.{all_edges};
ghost use Rattle.algo_paths.specs.Weights.{is_named, is_whole, has_whole, has_weight, natural, weight_of_value, edge_weight, AreWeights};
ghost use Rattle.algo_paths.specs.Reading.{ReadCause, TableCause, AddsWeights};

use crate::PathFault;
use column_types::{Cell, Kind, List};
use graph_schema::{EdgeTable, Prop};
use graph_slots::SlotName;
use graph_snap::{EdgeAt, Snapshot};
use std::alloc::Global;

/// Whether some edge table has a property of the name with whole numbers.
pub(crate) fn has_weight(tables: &[EdgeTable], name: &str) -> bool
    ensures { result ≡ has_weight name.now tables.now }
{
    tables
        .iter()
        .any(|table| has_whole(table.props.as_slice(), name))
}

fn has_whole(props: &[Prop], name: &str) -> bool
    ensures { result ≡ has_whole name.now props.now }
{
    props.iter().any(|prop| is_weight(prop, name))
}

fn is_weight(prop: &Prop, name: &str) -> bool
    ensures { result ≡ (is_named name.now prop.now && is_whole prop.now.kind) }
{
    prop.name.as_str() == name && is_whole(prop.kind)
}

fn is_whole(kind: Kind) -> bool
    ensures { result ≡ is_whole kind }
{
    matches!(kind, Kind::Integer | Kind::Long)
}

/// The weights of all edges, by tables and places.
pub(crate) fn edge_weights(alloc: Global, on: &Snapshot, name: &str) -> Result<List<u64>, PathFault>
    ensures are { IfOk result (λ weights. AreWeights (edge_weight name.now on.now) (all_edges on.now) weights) }
    ensures fit { IfOk result (λ weights. All (λ w. w < 2 ^ 63) weights) }
    ensures cause { IfErr result (ReadCause on.now name.now) }
{
    on.sound();
    let mut weights = List::new(alloc);
    for table in 0..on.schema().edges().len() as u32 {
        push_weights(on, table, name, &mut weights)?;
    }
    Ok(weights)
}

/// Appends the weights of the edges of a table.
fn push_weights(
    on: &Snapshot,
    table: u32,
    name: &str,
    weights: &mut List<u64>,
) -> Result<(), PathFault>
    requires table { table < length on.now.schema.edges }
    requires fit { All (λ w. w < 2 ^ 63) weights.old }
    ensures adds { OnOk result (AddsWeights (λ r. edge_weight name.now on.now (table, r)) (rows_at on.now.edges table) weights.old weights.new) }
    ensures fit { OnOk result (All (λ w. w < 2 ^ 63) weights.new) }
    ensures cause { IfErr result (TableCause on.now name.now table) }
{
    let prop = prop_place(table_props(on, table), name);
    let longs = long_values(on, table, prop);
    weights.with_room(on.edge_count(table))?;
    for place in 0..on.edge_count(table) {
        let at = EdgeAt { table, place };
        let Some(weight) = weight_at(on, at, prop, longs) else {
            return Err(PathFault::BadWeight {
                edge: on.edge_key(at),
            });
        };
        weights.push(weight)?;
    }
    Ok(())
}

/// The properties of an edge table.
fn table_props(on: &Snapshot, table: u32) -> &[Prop]
    requires { table < length on.now.schema.edges }
    ensures { result.now ≡ edge_props_at on.now.schema table }
{
    on.schema().edges()[table as usize].props.as_slice()
}

/// Where a property of the name stands, and how many there are where none has it.
fn prop_place(props: &[Prop], name: &str) -> usize
    ensures { result ≡ position_or_len (is_named name.now) props.now }
{
    match prop_named(props, name) {
        Some(place) => place,
        None => props.len(),
    }
}

fn prop_named(props: &[Prop], name: &str) -> Option<usize>
    ensures { result ≡ position (is_named name.now) props.now }
{
    props.iter().position(|prop| prop.name.as_str() == name)
}

/// The values of a property of the edges of a table as they lie in memory, where they are LONGs and none of them is NULL.
fn long_values(on: &Snapshot, table: u32, prop: usize) -> Option<&[i64]>
    requires table { table < length on.now.schema.edges }
    ensures { IfSome result (λ longs. edge_prop_values on.now table prop ≡ map Long longs.now) }
{
    on.sound();
    if prop >= table_props(on, table).len() {
        return None;
    }
    on.column(SlotName::EdgeProp(table, prop as u32)).longs()
}

/// The weight of an edge: its value of the property of that place, where this is a weight. `longs` are all values of the
/// property, if they are known.
fn weight_at(on: &Snapshot, at: EdgeAt, prop: usize, longs: Option<&[i64]>) -> Option<u64>
    requires table { at.table < length on.now.schema.edges }
    requires edge { HasEdge on.now at }
    requires longs { IfSome longs (λ numbers. edge_prop_values on.now at.table prop ≡ map Long numbers.now) }
    ensures value { (r : EdgeRow) → slice_get (rows_at on.now.edges at.table) at.place ≡ Some r → result ≡ weight_of_value (value_at prop r.values) }
    ensures fit { IfSome result (λ w. w < 2 ^ 63) }
{
    on.sound();
    if let Some(numbers) = longs {
        return weight_of_number(numbers[at.place as usize]);
    }
    if prop >= table_props(on, at.table).len() {
        return None;
    }
    weight_of(on.edge_value(at, prop as u32))
}

fn weight_of(cell: Cell<'_>) -> Option<u64>
    ensures value { result ≡ weight_of_value (cell_value cell.entry) }
    ensures fit { IfSome result (λ w. w < 2 ^ 63) }
{
    match cell {
        Cell::Integer(number) => weight_of_number(i64::from(number)),
        Cell::Long(number) => weight_of_number(number),
        _ => None,
    }
}

fn weight_of_number(number: i64) -> Option<u64>
    ensures value { result ≡ natural number }
    ensures fit { IfSome result (λ w. w < 2 ^ 63) }
{
    if number < 0 {
        return None;
    }
    Some(number as u64)
}
