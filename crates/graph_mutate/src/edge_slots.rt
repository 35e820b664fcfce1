//! The slots of new edge tables, all of them with new parts.
ghost use Rattle.std.specs.Prelude.{◌≡◌, ◌<◌, ◌≤◌, ◌+◌, ◌*◌, ◌++◌, ◌∷◌, [], All, IfOk, OnOk, length, map};
ghost use Rattle.std.specs.List.{range_with_len};
ghost use Rattle.graph_model.specs.Keys.{rows_at};
ghost use Rattle.graph_model.specs.Graph.{edge_props_at};
ghost use Rattle.graph_slots.specs.Meaning.{edge_rows};
ghost use Rattle.graph_slots.specs.declared.part.Part.TheVariants.{Cells as CellsOf};
ghost use Rattle.graph_snap.specs.declared.derived.Derived.TheVariants.{New as NewOf};
ghost use Rattle.graph_columns.specs.TableParts.{ArePlaces, integers, places_told};
ghost use Rattle.graph_mutate.specs.Taken.{taken};
ghost use Rattle.graph_mutate.specs.EdgeTables.{AreLists, taken_prop, list_parts, list_steps};

use crate::edge_lists::EdgeLists;
use column_types::{Column, EditableColumn, List, NoMemory, Steps, copy_value};
use graph_columns::{key_part, place_part, prop_part, row_part};
use graph_slots::{Part, SlotName};
use graph_snap::{Derived, Snapshot};
use std::alloc::Global;
use std::sync::ledger::Ledger;

/// The values of a column at these places, for a step each.
pub(crate) fn taken_part<L: Ledger>(
    alloc: Global,
    column: &Column,
    places: &[u32],
    steps: &mut Steps<L>,
) -> Result<Part, NoMemory>
    requires few { length places.now < 4294967295 }
    requires within { All (λ p. p < length column.now.values) places.now }
    ensures part { IfOk result (λ part. part ≡ CellsOf (record { kind = column.now.kind; values = taken column.now.values places.now })) }
    ensures counted { OnOk result (steps.new ≡ steps.old + length places.now) }
{
    let _rows = column.len();
    let mut values = EditableColumn::new(alloc, column.kind());
    for place in places {
        values.push(copy_value(alloc, column.get(*place))?)?;
    }
    prop_part(alloc, values, steps)
}

/// Appends the slots that tell where the edges of a table start and end, with four steps for each edge.
pub(crate) fn push_end_slots<L: Ledger>(
    alloc: Global,
    sources: List<i32>,
    destinations: List<i32>,
    derived: &mut List<Derived>,
    steps: &mut Steps<L>,
) -> Result<(), NoMemory>
    requires sources { ArePlaces sources }
    requires destinations { ArePlaces destinations }
    requires few_sources { length sources < 4294967295 }
    requires few_destinations { length destinations < 4294967295 }
    ensures slots { OnOk result (derived.new ≡ derived.old ++ NewOf (integers sources) ∷ NewOf (integers destinations) ∷ NewOf (edge_rows (places_told sources)) ∷ NewOf (edge_rows (places_told destinations)) ∷ []) }
    ensures counted { OnOk result (steps.new ≡ steps.old + ((length sources + length destinations) + (length sources + length destinations))) }
{
    let out = row_part(alloc, sources.as_slice(), steps)?;
    let into = row_part(alloc, destinations.as_slice(), steps)?;
    let source = place_part(alloc, sources, steps)?;
    let destination = place_part(alloc, destinations, steps)?;
    derived.push(Derived::New(source))?;
    derived.push(Derived::New(destination))?;
    derived.push(Derived::New(out))?;
    derived.push(Derived::New(into))
}

/// How many properties an edge table has.
pub(crate) fn prop_count(base: &Snapshot, table: u32) -> u32
    requires { table < length base.now.schema.edges }
    ensures value { result ≡ length (edge_props_at base.now.schema table) }
    ensures few { result ≤ 64 }
{
    base.schema().sound();
    base.schema().edges()[table as usize].props.len() as u32
}

/// Appends the slots of a table's properties, whose values are those of the base at these places, for a step each.
fn push_prop_slots<L: Ledger>(
    alloc: Global,
    base: &Snapshot,
    table: u32,
    origins: &[u32],
    derived: &mut List<Derived>,
    steps: &mut Steps<L>,
) -> Result<(), NoMemory>
    requires table { table < length base.now.schema.edges }
    requires few { length origins.now < 4294967295 }
    requires within { All (λ p. p < length (rows_at base.now.edges table)) origins.now }
    ensures slots { OnOk result (derived.new ≡ derived.old ++ map (λ p. NewOf (taken_prop base.now table origins.now p)) (range_with_len 0 (length (edge_props_at base.now.schema table)))) }
    ensures counted { OnOk result (steps.new ≡ steps.old + length (edge_props_at base.now.schema table) * length origins.now) }
{
    for prop in 0..prop_count(base, table) {
        let column = base.column(SlotName::EdgeProp(table, prop));
        let part = taken_part(alloc, column, origins, steps)?;
        derived.push(Derived::New(part))?;
    }
    Ok(())
}

/// Appends the slots of a new edge table, with a step for each value of each part. Its lists are moved.
pub(crate) fn push_edge_slots<L: Ledger>(
    alloc: Global,
    base: &Snapshot,
    table: u32,
    lists: EdgeLists,
    derived: &mut List<Derived>,
    steps: &mut Steps<L>,
) -> Result<(), NoMemory>
    requires table { table < length base.now.schema.edges }
    requires lists { AreLists base.now table lists }
    ensures slots { OnOk result (derived.new ≡ derived.old ++ map NewOf (list_parts base.now table lists)) }
    ensures counted { OnOk result (steps.new ≡ steps.old + list_steps base.now table lists) }
{
    let EdgeLists {
        keys,
        sources,
        destinations,
        origins,
    } = lists;
    derived.push(Derived::New(key_part(alloc, keys, steps)?))?;
    push_end_slots(alloc, sources, destinations, derived, steps)?;
    push_prop_slots(alloc, base, table, origins.as_slice(), derived, steps)
}
