//! The slots of changed graphs that hold parts of the base.
ghost use Rattle.std.specs.Prelude.{◌≡◌, ◌<◌, ◌++◌, IfOk, OnOk, Some, length, map, slice_get};
ghost use Rattle.graph_slots.specs.Slots.{slots, vertex_slots, vertex_table_slots};
ghost use Rattle.graph_slots.specs.Numbers.{HasSlot, slot_number};
ghost use Rattle.graph_snap.specs.declared.derived.Derived.TheVariants.{Kept as KeptOf};
ghost use Rattle.graph_mutate.specs.Transposed.{turned_slot as turned};

use crate::names::turned_slot;
use column_types::{List, NoMemory};
use graph_schema::VertexTable;
use graph_slots::SlotName;
use graph_snap::{Derived, Snapshot};
use std::alloc::Global;

/// The part of the base's slot of a name.
pub(crate) fn kept_slot(base: &Snapshot, name: SlotName) -> Derived
    requires { HasSlot base.now.schema name }
    ensures { result ≡ KeptOf (slot_number base.now.schema name) }
{
    Derived::Kept(base.number(name))
}

/// All slots of the base.
pub(crate) fn cloned_slots(alloc: Global, base: &Snapshot) -> Result<List<Derived>, NoMemory>
    ensures { IfOk result (λ derived. derived ≡ map (λ x. KeptOf (slot_number base.now.schema x)) (slots base.now.schema)) }
{
    let mut derived = List::new(alloc);
    for slot in 0..base.slot_count() {
        derived.push(kept_slot(base, base.slot_name(slot)))?;
    }
    Ok(derived)
}

/// The slots of the transposed graph: all of them are slots of the base.
pub(crate) fn transposed_slots(alloc: Global, base: &Snapshot) -> Result<List<Derived>, NoMemory>
    ensures { IfOk result (λ derived. derived ≡ map (λ x. KeptOf (slot_number base.now.schema (turned x))) (slots base.now.schema)) }
{
    let mut derived = List::new(alloc);
    for slot in 0..base.slot_count() {
        derived.push(kept_slot(base, turned_slot(base.slot_name(slot))))?;
    }
    Ok(derived)
}

/// Appends the slots of a vertex table of the base.
fn push_kept_table(
    base: &Snapshot,
    table: u32,
    shape: &VertexTable,
    derived: &mut List<Derived>,
) -> Result<(), NoMemory>
    requires { slice_get base.now.schema.vertices table ≡ Some shape.now }
    ensures { OnOk result (derived.new ≡ derived.old ++ map (λ x. KeptOf (slot_number base.now.schema x)) (vertex_table_slots table shape.now)) }
{
    base.schema().sound();
    derived.push(kept_slot(base, SlotName::VertexKey(table)))?;
    for prop in 0..shape.props.len() as u32 {
        derived.push(kept_slot(base, SlotName::VertexProp(table, prop)))?;
    }
    Ok(())
}

/// The slots of all vertex tables of the base.
pub(crate) fn kept_vertex_slots(alloc: Global, base: &Snapshot) -> Result<List<Derived>, NoMemory>
    ensures { IfOk result (λ derived. derived ≡ map (λ x. KeptOf (slot_number base.now.schema x)) (vertex_slots 0 base.now.schema.vertices)) }
{
    base.schema().sound();
    let mut derived = List::new(alloc);
    for (table, shape) in base.schema().vertices().iter().enumerate() {
        push_kept_table(base, table as u32, shape, &mut derived)?;
    }
    Ok(derived)
}
