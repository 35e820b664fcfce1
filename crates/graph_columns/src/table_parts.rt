//! The parts of whole tables. Their columns are moved.
ghost use Rattle.std.specs.Prelude.{◌≡◌, ◌<◌, ◌≤◌, ◌+◌, ◌∷◌, [], ◌++◌, ℤ, All, OnOk, length, map, position, sum_by};
ghost use Rattle.std.specs.List.{flat_map};
ghost use Rattle.std.specs.Ordering.{int_eq};
ghost use Rattle.key_places.specs.Places.{place_of};
ghost use Rattle.graph_slots.specs.Meaning.{edge_rows};
ghost use Rattle.graph_slots.specs.declared.part.Part.TheVariants.{Cells as CellsOf};
ghost use Rattle.graph_columns.specs.Keys.{keys_of, IsKeyColumn};
ghost use Rattle.graph_columns.specs.TableParts.{ArePlaces, IsVertexTable, IsEdgeTable, cells_of, edge_parts, edge_steps, integers, places_told, vertex_parts, vertex_steps};

use crate::TableIndex;
use crate::parts::{place_part, prop_part, row_part};
use column_types::{Column, EditableColumn, List, NoMemory, Shared, Steps};
use graph_model::{EdgeColumns, VertexColumns};
use graph_slots::Part;
use key_places::KeyPlaces;
use std::alloc::Global;
use std::sync::ledger::Ledger;

/// Appends a part for each property of a table, with a step for each value.
fn push_props<L: Ledger>(
    alloc: Global,
    values: List<EditableColumn>,
    parts: &mut List<Part>,
    steps: &mut Steps<L>,
) -> Result<(), NoMemory>
    ensures parts { OnOk result (parts.new ≡ parts.old ++ map CellsOf values) }
    ensures counted { OnOk result (steps.new ≡ steps.old + sum_by cells_of values) }
    ensures least { steps.old ≤ steps.new }
    ensures most { steps.new ≤ steps.old + sum_by cells_of values }
{
    for column in values.into_vec() {
        parts.push(prop_part(alloc, column, steps)?)?;
    }
    Ok(())
}

/// Appends the index of a table's keys, whose places are known.
fn push_index(
    alloc: Global,
    column: Shared<Column>,
    places: KeyPlaces,
    indexes: &mut List<Shared<TableIndex>>,
) -> Result<(), NoMemory>
    requires keys { IsKeyColumn column }
    requires places { (k : ℤ) → place_of places k ≡ position (λ q. int_eq q k) (keys_of column) }
    ensures { OnOk result (indexes.new ≡ indexes.old ++ keys_of column ∷ []) }
{
    let index = TableIndex::of_places(column, places);
    indexes.push(Shared::new(alloc, index)?)
}

/// Appends the parts and the index of a vertex table, with a step for each value of each part.
fn push_vertex_table<L: Ledger>(
    alloc: Global,
    columns: VertexColumns,
    parts: &mut List<Part>,
    indexes: &mut List<Shared<TableIndex>>,
    steps: &mut Steps<L>,
) -> Result<(), NoMemory>
    requires { IsVertexTable columns }
    ensures parts { OnOk result (parts.new ≡ parts.old ++ vertex_parts columns) }
    ensures indexes { OnOk result (indexes.new ≡ indexes.old ++ columns.keys ∷ []) }
    ensures counted { OnOk result (steps.new ≡ steps.old + vertex_steps columns) }
    ensures least { steps.old ≤ steps.new }
    ensures most { steps.new ≤ steps.old + vertex_steps columns }
{
    let VertexColumns {
        keys,
        values,
        places,
    } = columns;
    let key_column = EditableColumn::of_longs(alloc, keys).finish(steps);
    let column = Shared::new(alloc, key_column)?;
    push_index(alloc, column.share()?, places, indexes)?;
    parts.push(Part::Cells(column))?;
    push_props(alloc, values, parts, steps)
}

/// Appends the parts that tell where the edges of a table start and end, with four steps for each edge.
fn push_ends<L: Ledger>(
    alloc: Global,
    sources: List<i32>,
    destinations: List<i32>,
    parts: &mut List<Part>,
    steps: &mut Steps<L>,
) -> Result<(), NoMemory>
    requires sources { ArePlaces sources }
    requires destinations { ArePlaces destinations }
    requires few_sources { length sources < 4294967295 }
    requires few_destinations { length destinations < 4294967295 }
    ensures parts { OnOk result (parts.new ≡ parts.old ++ integers sources ∷ integers destinations ∷ edge_rows (places_told sources) ∷ edge_rows (places_told destinations) ∷ []) }
    ensures counted { OnOk result (steps.new ≡ steps.old + ((length sources + length destinations) + (length sources + length destinations))) }
    ensures least { steps.old ≤ steps.new }
    ensures most { steps.new ≤ steps.old + ((length sources + length destinations) + (length sources + length destinations)) }
{
    let out = row_part(alloc, sources.as_slice(), steps)?;
    let into = row_part(alloc, destinations.as_slice(), steps)?;
    let source = place_part(alloc, sources, steps)?;
    let destination = place_part(alloc, destinations, steps)?;
    parts.push(source)?;
    parts.push(destination)?;
    parts.push(out)?;
    parts.push(into)
}

/// Appends the parts and the index of an edge table, with a step for each value of each part.
fn push_edge_table<L: Ledger>(
    alloc: Global,
    columns: EdgeColumns,
    parts: &mut List<Part>,
    indexes: &mut List<Shared<TableIndex>>,
    steps: &mut Steps<L>,
) -> Result<(), NoMemory>
    requires { IsEdgeTable columns }
    ensures parts { OnOk result (parts.new ≡ parts.old ++ edge_parts columns) }
    ensures indexes { OnOk result (indexes.new ≡ indexes.old ++ columns.keys ∷ []) }
    ensures counted { OnOk result (steps.new ≡ steps.old + edge_steps columns) }
    ensures least { steps.old ≤ steps.new }
    ensures most { steps.new ≤ steps.old + edge_steps columns }
{
    let EdgeColumns {
        keys,
        sources,
        destinations,
        values,
        places,
    } = columns;
    let key_column = EditableColumn::of_longs(alloc, keys).finish(steps);
    let column = Shared::new(alloc, key_column)?;
    push_index(alloc, column.share()?, places, indexes)?;
    parts.push(Part::Cells(column))?;
    push_ends(alloc, sources, destinations, parts, steps)?;
    push_props(alloc, values, parts, steps)
}

/// Appends the parts and the indexes of vertex tables.
pub(crate) fn push_vertex_tables<L: Ledger>(
    alloc: Global,
    tables: List<VertexColumns>,
    parts: &mut List<Part>,
    indexes: &mut List<Shared<TableIndex>>,
    steps: &mut Steps<L>,
) -> Result<(), NoMemory>
    requires { All IsVertexTable tables }
    ensures parts { OnOk result (parts.new ≡ parts.old ++ flat_map vertex_parts tables) }
    ensures indexes { OnOk result (indexes.new ≡ indexes.old ++ map (λ c. c.keys) tables) }
    ensures counted { OnOk result (steps.new ≡ steps.old + sum_by vertex_steps tables) }
    ensures least { steps.old ≤ steps.new }
    ensures most { steps.new ≤ steps.old + sum_by vertex_steps tables }
{
    for columns in tables.into_vec() {
        push_vertex_table(alloc, columns, parts, indexes, steps)?;
    }
    Ok(())
}

/// Appends the parts and the indexes of edge tables.
pub(crate) fn push_edge_tables<L: Ledger>(
    alloc: Global,
    tables: List<EdgeColumns>,
    parts: &mut List<Part>,
    indexes: &mut List<Shared<TableIndex>>,
    steps: &mut Steps<L>,
) -> Result<(), NoMemory>
    requires { All IsEdgeTable tables }
    ensures parts { OnOk result (parts.new ≡ parts.old ++ flat_map edge_parts tables) }
    ensures indexes { OnOk result (indexes.new ≡ indexes.old ++ map (λ c. c.keys) tables) }
    ensures counted { OnOk result (steps.new ≡ steps.old + sum_by edge_steps tables) }
    ensures least { steps.old ≤ steps.new }
    ensures most { steps.new ≤ steps.old + sum_by edge_steps tables }
{
    for columns in tables.into_vec() {
        push_edge_table(alloc, columns, parts, indexes, steps)?;
    }
    Ok(())
}
