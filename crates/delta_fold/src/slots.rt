//! What the slots get after changes, table by table, in the order of the slots.
ghost use Rattle.std.specs.Prelude.{◌≡◌, ◌<◌, ◌≤◌, ◌+◌, ◌++◌, ℕ, All, IfOk, OnOk, length, map, slice_get, sum_by, Some};
ghost use Rattle.graph_model.specs.declared.columns.VertexColumns.{VertexColumns as OfVertices};
ghost use Rattle.graph_model.specs.declared.columns.EdgeColumns.{EdgeColumns as OfEdges};
ghost use Rattle.graph_model.specs.Graph.{vertex_props_at, edge_props_at};
ghost use Rattle.graph_slots.specs.Slots.{slots};
ghost use Rattle.graph_slots.specs.Numbers.{HasSlot};
ghost use Rattle.graph_columns.specs.SlotSteps.{slot_steps};
ghost use Rattle.graph_columns.specs.TableParts.{ArePlaces, IsVertexTable, IsEdgeTable};
ghost use Rattle.delta_fold.specs.Marked.{is_marked};
ghost use Rattle.delta_fold.specs.Pieces.{prop_slot_of, prop_pieces, end_pieces, vertex_pieces, edge_pieces, vertex_pieces_from, edge_pieces_from, picked, picked_steps, derived_slot};
ghost use Rattle.delta_fold.specs.Steps.{steps_if};

use crate::marks::Marks;
use crate::parts::{key_slot, place_slot, prop_slot, row_slot};
use column_types::{EditableColumn, List, NoMemory, Steps};
use graph_model::{EdgeColumns, Graph, GraphColumns, VertexColumns};
use graph_slots::SlotName;
use graph_snap::{Derived, Snapshot};
use std::alloc::Global;
use std::sync::ledger::Ledger;

/// A table of vertices or of edges, named by its place in the schema.
#[derive(Clone, Copy)]
pub(crate) enum TableName {
    Vertices(u32),
    Edges(u32),
}

/// The slot of a property of a table.
fn prop_name(table: TableName, prop: u32) -> SlotName
    ensures { result ≡ prop_slot_of table prop }
{
    match table {
        TableName::Vertices(t) => SlotName::VertexProp(t, prop),
        TableName::Edges(t) => SlotName::EdgeProp(t, prop),
    }
}

/// Appends what the slots of a table's properties get. Their columns are moved.
fn push_props<L: Ledger>(
    alloc: Global,
    base: &Snapshot,
    marks: &Marks,
    table: TableName,
    values: List<EditableColumn>,
    derived: &mut List<Derived>,
    steps: &mut Steps<L>,
) -> Result<(), NoMemory>
    requires few { length values ≤ 64 }
    requires slots { (p : ℕ) → p < length values → HasSlot base.now.schema (prop_slot_of table p) }
    ensures slots { OnOk result (derived.new ≡ derived.old ++ map (picked base.now.schema marks.now) (prop_pieces (prop_slot_of table) 0 values)) }
    ensures counted { OnOk result (steps.new ≡ steps.old + sum_by (picked_steps base.now.schema marks.now) (prop_pieces (prop_slot_of table) 0 values)) }
    ensures least { steps.old ≤ steps.new }
    ensures most { steps.new ≤ steps.old + sum_by (picked_steps base.now.schema marks.now) (prop_pieces (prop_slot_of table) 0 values) }
{
    let mut prop = 0;
    for column in values.into_vec() {
        let name = prop_name(table, prop);
        derived.push(prop_slot(alloc, base, marks, name, column, steps)?)?;
        prop += 1;
    }
    Ok(())
}

/// Appends what the slots of a vertex table get. Its columns are moved.
fn push_vertex_table<L: Ledger>(
    alloc: Global,
    base: &Snapshot,
    marks: &Marks,
    table: u32,
    columns: VertexColumns,
    derived: &mut List<Derived>,
    steps: &mut Steps<L>,
) -> Result<(), NoMemory>
    requires table { table < length base.now.schema.vertices }
    requires width { length columns.values ≡ length (vertex_props_at base.now.schema table) }
    requires keep { IsVertexTable columns }
    ensures slots { OnOk result (derived.new ≡ derived.old ++ map (picked base.now.schema marks.now) (vertex_pieces table columns)) }
    ensures counted { OnOk result (steps.new ≡ steps.old + sum_by (picked_steps base.now.schema marks.now) (vertex_pieces table columns)) }
    ensures least { steps.old ≤ steps.new }
    ensures most { steps.new ≤ steps.old + sum_by (picked_steps base.now.schema marks.now) (vertex_pieces table columns) }
{
    base.sound();
    let VertexColumns {
        keys,
        values,
        places: _,
    } = columns;
    let key = SlotName::VertexKey(table);
    derived.push(key_slot(alloc, base, marks, key, keys, steps)?)?;
    let table = TableName::Vertices(table);
    push_props(alloc, base, marks, table, values, derived, steps)
}

/// Appends what the four slots get that tell where the edges of a table start and end. The lists of places are moved.
fn push_ends<L: Ledger>(
    alloc: Global,
    base: &Snapshot,
    marks: &Marks,
    table: u32,
    sources: List<i32>,
    destinations: List<i32>,
    derived: &mut List<Derived>,
    steps: &mut Steps<L>,
) -> Result<(), NoMemory>
    requires table { table < length base.now.schema.edges }
    requires sources { ArePlaces sources }
    requires destinations { ArePlaces destinations }
    requires few_sources { length sources < 4294967295 }
    requires few_destinations { length destinations < 4294967295 }
    ensures slots { OnOk result (derived.new ≡ derived.old ++ map (picked base.now.schema marks.now) (end_pieces table sources destinations)) }
    ensures counted { OnOk result (steps.new ≡ steps.old + sum_by (picked_steps base.now.schema marks.now) (end_pieces table sources destinations)) }
    ensures least { steps.old ≤ steps.new }
    ensures most { steps.new ≤ steps.old + sum_by (picked_steps base.now.schema marks.now) (end_pieces table sources destinations) }
{
    let out = row_slot(
        alloc,
        base,
        marks,
        SlotName::Out(table),
        sources.as_slice(),
        steps,
    )?;
    let into = row_slot(
        alloc,
        base,
        marks,
        SlotName::Into(table),
        destinations.as_slice(),
        steps,
    )?;
    derived.push(place_slot(alloc, base, marks, SlotName::Source(table), sources, steps)?)?;
    derived.push(place_slot(
        alloc,
        base,
        marks,
        SlotName::Destination(table),
        destinations,
        steps,
    )?)?;
    derived.push(out)?;
    derived.push(into)
}

/// Appends what the slots of an edge table get. Its columns are moved.
fn push_edge_table<L: Ledger>(
    alloc: Global,
    base: &Snapshot,
    marks: &Marks,
    table: u32,
    columns: EdgeColumns,
    derived: &mut List<Derived>,
    steps: &mut Steps<L>,
) -> Result<(), NoMemory>
    requires table { table < length base.now.schema.edges }
    requires width { length columns.values ≡ length (edge_props_at base.now.schema table) }
    requires keep { IsEdgeTable columns }
    ensures slots { OnOk result (derived.new ≡ derived.old ++ map (picked base.now.schema marks.now) (edge_pieces table columns)) }
    ensures counted { OnOk result (steps.new ≡ steps.old + sum_by (picked_steps base.now.schema marks.now) (edge_pieces table columns)) }
    ensures least { steps.old ≤ steps.new }
    ensures most { steps.new ≤ steps.old + sum_by (picked_steps base.now.schema marks.now) (edge_pieces table columns) }
{
    base.sound();
    let EdgeColumns {
        keys,
        sources,
        destinations,
        values,
        places: _,
    } = columns;
    let key = SlotName::EdgeKey(table);
    derived.push(key_slot(alloc, base, marks, key, keys, steps)?)?;
    push_ends(
        alloc,
        base,
        marks,
        table,
        sources,
        destinations,
        derived,
        steps,
    )?;
    let table = TableName::Edges(table);
    push_props(alloc, base, marks, table, values, derived, steps)
}

/// Appends what the slots of vertex tables get. Their columns are moved.
fn push_vertex_tables<L: Ledger>(
    alloc: Global,
    base: &Snapshot,
    marks: &Marks,
    tables: List<VertexColumns>,
    derived: &mut List<Derived>,
    steps: &mut Steps<L>,
) -> Result<(), NoMemory>
    requires tables { length tables ≡ length base.now.schema.vertices }
    requires widths { (t : ℕ) (c : OfVertices) → slice_get tables t ≡ Some c → length c.values ≡ length (vertex_props_at base.now.schema t) }
    requires keep { All IsVertexTable tables }
    ensures slots { OnOk result (derived.new ≡ derived.old ++ map (picked base.now.schema marks.now) (vertex_pieces_from 0 tables)) }
    ensures counted { OnOk result (steps.new ≡ steps.old + sum_by (picked_steps base.now.schema marks.now) (vertex_pieces_from 0 tables)) }
    ensures least { steps.old ≤ steps.new }
    ensures most { steps.new ≤ steps.old + sum_by (picked_steps base.now.schema marks.now) (vertex_pieces_from 0 tables) }
{
    base.sound();
    let mut table = 0;
    for columns in tables.into_vec() {
        push_vertex_table(alloc, base, marks, table, columns, derived, steps)?;
        table += 1;
    }
    Ok(())
}

/// Appends what the slots of edge tables get. Their columns are moved.
fn push_edge_tables<L: Ledger>(
    alloc: Global,
    base: &Snapshot,
    marks: &Marks,
    tables: List<EdgeColumns>,
    derived: &mut List<Derived>,
    steps: &mut Steps<L>,
) -> Result<(), NoMemory>
    requires tables { length tables ≡ length base.now.schema.edges }
    requires widths { (t : ℕ) (c : OfEdges) → slice_get tables t ≡ Some c → length c.values ≡ length (edge_props_at base.now.schema t) }
    requires keep { All IsEdgeTable tables }
    ensures slots { OnOk result (derived.new ≡ derived.old ++ map (picked base.now.schema marks.now) (edge_pieces_from 0 tables)) }
    ensures counted { OnOk result (steps.new ≡ steps.old + sum_by (picked_steps base.now.schema marks.now) (edge_pieces_from 0 tables)) }
    ensures least { steps.old ≤ steps.new }
    ensures most { steps.new ≤ steps.old + sum_by (picked_steps base.now.schema marks.now) (edge_pieces_from 0 tables) }
{
    base.sound();
    let mut table = 0;
    for columns in tables.into_vec() {
        push_edge_table(alloc, base, marks, table, columns, derived, steps)?;
        table += 1;
    }
    Ok(())
}

/// What each slot gets where a graph of the base's schema is the new one: a part of this graph where the slot is marked, and the
/// base's part where it is not. The columns of the graph are moved.
pub(crate) fn marked_slots<L: Ledger>(
    alloc: Global,
    base: &Snapshot,
    graph: Graph,
    marks: &Marks,
    steps: &mut Steps<L>,
) -> Result<List<Derived>, NoMemory>
    requires { graph.schema ≡ base.now.schema }
    ensures slots { IfOk result (λ derived. derived ≡ map (derived_slot base.now.schema graph marks.now) (slots base.now.schema)) }
    ensures counted { OnOk result (steps.new ≡ steps.old + sum_by (λ x. steps_if (is_marked base.now.schema marks.now x) (slot_steps graph x)) (slots base.now.schema)) }
    ensures least { steps.old ≤ steps.new }
    ensures most { steps.new ≤ steps.old + sum_by (λ x. steps_if (is_marked base.now.schema marks.now x) (slot_steps graph x)) (slots base.now.schema) }
{
    graph.sound();
    let columns = graph.into_columns(alloc)?;
    let GraphColumns {
        schema: _,
        vertices,
        edges,
    } = columns;
    let mut derived = List::new(alloc);
    push_vertex_tables(alloc, base, marks, vertices, &mut derived, steps)?;
    push_edge_tables(alloc, base, marks, edges, &mut derived, steps)?;
    Ok(derived)
}
