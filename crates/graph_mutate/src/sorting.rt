//! The slots of graphs whose vertices stand by falling degree.
ghost use Rattle.std.specs.Prelude.{◌≡◌, ◌<◌, ◌≤◌, ◌+◌, ◌*◌, ◌++◌, ◌∷◌, [], pos, All, IfOk, OnOk, length, map, slice_get, slice_index_or, sum_by, Some};
ghost use Rattle.std.specs.List.{range_with_len};
ghost use Rattle.graph_model.specs.Keys.{rows_at};
ghost use Rattle.graph_model.specs.Graph.{vertex_props_at, source_at, destination_at};
ghost use Rattle.graph_slots.specs.Slots.{slots};
ghost use Rattle.graph_slots.specs.Meaning.{source_places, destination_places};
ghost use Rattle.graph_columns.specs.TableParts.{ArePlaces, places_told};
ghost use Rattle.graph_snap.specs.declared.derived.Derived.TheVariants.{New as NewOf};
ghost use Rattle.graph_mutate.specs.Derives.{derived_slots};
ghost use Rattle.graph_mutate.specs.Sorted.{sorted, row_degree};
ghost use Rattle.graph_mutate.specs.Ranks.{Inverts, table_order, AreInverses};
ghost use Rattle.graph_schema.specs.declared.schema.EdgeTable.{EdgeTable as Shape};
ghost use Rattle.graph_slots.specs.declared.slot.SlotName.TheVariants.{EdgeProp as OfEdgeProp};
ghost use Rattle.graph_slots.specs.Slots.{vertex_slots, edge_slots, edge_table_slots};
ghost use Rattle.graph_slots.specs.Numbers.{slot_number};
ghost use Rattle.graph_snap.specs.declared.derived.Derived.TheVariants.{Kept as KeptOf};
ghost use Rattle.graph_model.specs.Graph.{edge_props_at};
ghost use Rattle.graph_mutate.specs.Steps.{of_edges_alone, steps_unless_kept};
ghost use Rattle.graph_mutate.specs.VertexTables.{taken_keys, taken_values};

use crate::degrees::places_by_degree;
use crate::derived::kept_slot;
use crate::edge_slots::{prop_count, push_end_slots, taken_part};
use column_types::{List, NoMemory, Steps};
use graph_slots::SlotName;
use graph_snap::{Derived, Snapshot};
use std::alloc::Global;
use std::sync::ledger::Ledger;

/// So many zeros.
fn zeros(alloc: Global, count: usize) -> Result<List<u32>, NoMemory>
    ensures { IfOk result (λ made. length made ≡ count) }
{
    let mut made = List::new(alloc);
    for _i in 0..count {
        made.push(0)?;
    }
    Ok(made)
}

/// For each old place the new one, where an order tells the old place of each new one.
fn new_places(alloc: Global, order: &[u32]) -> Result<List<u32>, NoMemory>
    requires few { length order.now ≤ 1048576 }
    requires within { All (λ p. p < length order.now) order.now }
    ensures { IfOk result (Inverts order.now) }
{
    let mut made = zeros(alloc, order.len())?;
    for (place, old) in order.iter().enumerate() {
        made.set(*old as usize, place as u32);
    }
    Ok(made)
}

/// The new places of ends.
fn moved(alloc: Global, places: &[i32], new: &[u32]) -> Result<List<i32>, NoMemory>
    requires places { ArePlaces places.now }
    requires within { All (λ p. p < length new.now) (places_told places.now) }
    requires few { All (λ p. slice_index_or new.now p 0 < 1048576) (places_told places.now) }
    ensures { IfOk result (λ made. made ≡ map (λ p. pos (slice_index_or new.now p 0)) (places_told places.now)) }
{
    let mut made = List::new(alloc);
    for place in places {
        made.push(new[*place as usize] as i32)?;
    }
    Ok(made)
}

/// How many properties a vertex table has.
fn vertex_prop_count(base: &Snapshot, table: u32) -> u32
    requires { table < length base.now.schema.vertices }
    ensures value { result ≡ length (vertex_props_at base.now.schema table) }
    ensures few { result ≤ 64 }
{
    base.schema().sound();
    base.schema().vertices()[table as usize].props.len() as u32
}

/// Appends the slots of a vertex table with its vertices in another order, for a step for each value.
fn push_ordered_slots<L: Ledger>(
    alloc: Global,
    base: &Snapshot,
    table: u32,
    order: &[u32],
    derived: &mut List<Derived>,
    steps: &mut Steps<L>,
) -> Result<(), NoMemory>
    requires table { table < length base.now.schema.vertices }
    requires few { length order.now < 4294967295 }
    requires within { All (λ p. p < length (rows_at base.now.vertices table)) order.now }
    ensures slots { OnOk result (derived.new ≡ (derived.old ++ NewOf (taken_keys base.now table order.now) ∷ []) ++ map (λ p. NewOf (taken_values base.now table order.now p)) (range_with_len 0 (length (vertex_props_at base.now.schema table)))) }
    ensures counted { OnOk result (steps.new ≡ steps.old + (1 + length (vertex_props_at base.now.schema table)) * length order.now) }
{
    let keys = taken_part(alloc, base.column(SlotName::VertexKey(table)), order, steps)?;
    derived.push(Derived::New(keys))?;
    for prop in 0..vertex_prop_count(base, table) {
        let column = base.column(SlotName::VertexProp(table, prop));
        let part = taken_part(alloc, column, order, steps)?;
        derived.push(Derived::New(part))?;
    }
    Ok(())
}

/// Appends the slots of the properties of an edge table of the base.
fn push_kept_props(base: &Snapshot, table: u32, derived: &mut List<Derived>) -> Result<(), NoMemory>
    requires { table < length base.now.schema.edges }
    ensures { OnOk result (derived.new ≡ derived.old ++ map (λ p. KeptOf (slot_number base.now.schema (OfEdgeProp table p))) (range_with_len 0 (length (edge_props_at base.now.schema table)))) }
{
    for prop in 0..prop_count(base, table) {
        derived.push(kept_slot(base, SlotName::EdgeProp(table, prop)))?;
    }
    Ok(())
}

/// Appends the slots of an edge table whose vertices moved: `from` and `to` tell the new places of the vertices where its edges
/// start and end.
fn push_moved_slots<L: Ledger>(
    alloc: Global,
    base: &Snapshot,
    table: u32,
    from: &[u32],
    to: &[u32],
    derived: &mut List<Derived>,
    steps: &mut Steps<L>,
) -> Result<(), NoMemory>
    requires table { table < length base.now.schema.edges }
    requires from { Inverts (table_order base.now (source_at base.now.schema table)) from.now }
    requires to { Inverts (table_order base.now (destination_at base.now.schema table)) to.now }
    ensures slots { OnOk result ((x : Shape) → slice_get base.now.schema.edges table ≡ Some x → derived.new ≡ derived.old ++ derived_slots base.now (sorted base.now) of_edges_alone (edge_table_slots table x)) }
    ensures counted { OnOk result (steps.new ≡ steps.old + 4 * length (rows_at base.now.edges table)) }
{
    base.sound();
    let sources = moved(alloc, base.source_places(table), from)?;
    let destinations = moved(alloc, base.destination_places(table), to)?;
    derived.push(kept_slot(base, SlotName::EdgeKey(table)))?;
    push_end_slots(alloc, sources, destinations, derived, steps)?;
    push_kept_props(base, table, derived)
}

/// Appends the slots of all vertex tables, and answers the new place of each vertex.
fn push_vertex_tables<L: Ledger>(
    alloc: Global,
    base: &Snapshot,
    derived: &mut List<Derived>,
    steps: &mut Steps<L>,
) -> Result<List<List<u32>>, NoMemory>
    requires { derived.old ≡ [] }
    ensures new { IfOk result (AreInverses base.now) }
    ensures slots { OnOk result (derived.new ≡ derived_slots base.now (sorted base.now) of_edges_alone (vertex_slots 0 base.now.schema.vertices)) }
    ensures counted { OnOk result (steps.new ≡ steps.old + sum_by (λ x. steps_unless_kept (sorted base.now) x (of_edges_alone x)) (vertex_slots 0 base.now.schema.vertices)) }
{
    base.sound();
    let mut new = List::new(alloc);
    for table in 0..base.schema().vertices().len() as u32 {
        let order = places_by_degree(alloc, base, table)?;
        push_ordered_slots(alloc, base, table, order.as_slice(), derived, steps)?;
        new.push(new_places(alloc, order.as_slice())?)?;
    }
    Ok(new)
}

/// The vertex tables where the edges of a table start and end.
fn end_tables(base: &Snapshot, table: u32) -> (u32, u32)
    requires { table < length base.now.schema.edges }
    ensures source { result.0 ≡ source_at base.now.schema table }
    ensures destination { result.1 ≡ destination_at base.now.schema table }
{
    let shape = &base.schema().edges()[table as usize];
    (shape.source, shape.destination)
}

/// The list of a table.
fn places_at(new: &[List<u32>], table: u32) -> &[u32]
    requires { table < length new.now }
    ensures { result.now ≡ slice_index_or new.now table [] }
{
    new[table as usize].as_slice()
}

/// The slots of the graph whose vertices stand by falling degree.
pub(crate) fn sorted_slots<L: Ledger>(
    alloc: Global,
    base: &Snapshot,
    steps: &mut Steps<L>,
) -> Result<List<Derived>, NoMemory>
    ensures slots { IfOk result (λ derived. derived ≡ derived_slots base.now (sorted base.now) of_edges_alone (slots base.now.schema)) }
    ensures counted { OnOk result (steps.new ≡ steps.old + sum_by (λ x. steps_unless_kept (sorted base.now) x (of_edges_alone x)) (slots base.now.schema)) }
{
    base.sound();
    let mut derived = List::new(alloc);
    let new = push_vertex_tables(alloc, base, &mut derived, steps)?;
    for table in 0..base.schema().edges().len() as u32 {
        let (source, destination) = end_tables(base, table);
        let from = places_at(new.as_slice(), source);
        let to = places_at(new.as_slice(), destination);
        push_moved_slots(alloc, base, table, from, to, &mut derived, steps)?;
    }
    Ok(derived)
}
