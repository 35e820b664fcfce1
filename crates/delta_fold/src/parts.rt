//! What one slot gets after changes: a new part where the slot is marked, and the base's part where it is not.
ghost use Rattle.std.specs.Prelude.{◌≡◌, ◌<◌, ◌≤◌, ◌+◌, IfOk, OnOk, length};
ghost use Rattle.graph_slots.specs.declared.part.Part.TheVariants.{Cells as CellsOf};
ghost use Rattle.graph_slots.specs.Meaning.{longs, edge_rows};
ghost use Rattle.graph_slots.specs.Numbers.{HasSlot, slot_number};
ghost use Rattle.graph_columns.specs.TableParts.{ArePlaces, integers, places_told};
ghost use Rattle.delta_fold.specs.Marked.{is_marked};
ghost use Rattle.delta_fold.specs.Folded.{derived_if};
ghost use Rattle.delta_fold.specs.Steps.{steps_if};

use crate::marks::Marks;
use column_types::{EditableColumn, List, NoMemory, Steps};
use graph_columns::{key_part, place_part, prop_part, row_part};
use graph_slots::SlotName;
use graph_snap::{Derived, Snapshot};
use std::alloc::Global;
use std::sync::ledger::Ledger;

/// What a slot of keys gets. A new part takes a step for each key, and the keys are moved into it.
pub(crate) fn key_slot<L: Ledger>(
    alloc: Global,
    base: &Snapshot,
    marks: &Marks,
    name: SlotName,
    keys: List<i64>,
    steps: &mut Steps<L>,
) -> Result<Derived, NoMemory>
    requires slot { HasSlot base.now.schema name }
    requires few { length keys < 4294967296 }
    ensures slot { IfOk result (λ d. d ≡ derived_if (is_marked base.now.schema marks.now name) (longs keys) (slot_number base.now.schema name)) }
    ensures counted { steps.new ≡ steps.old + steps_if (is_marked base.now.schema marks.now name) (length keys) }
{
    if !marks.has(base.schema(), name) {
        return Ok(Derived::Kept(base.number(name)));
    }
    Ok(Derived::New(key_part(alloc, keys, steps)?))
}

/// What the slot of a property gets. A new part takes a step for each value, and the values are moved into it.
pub(crate) fn prop_slot<L: Ledger>(
    alloc: Global,
    base: &Snapshot,
    marks: &Marks,
    name: SlotName,
    values: EditableColumn,
    steps: &mut Steps<L>,
) -> Result<Derived, NoMemory>
    requires slot { HasSlot base.now.schema name }
    ensures slot { IfOk result (λ d. d ≡ derived_if (is_marked base.now.schema marks.now name) (CellsOf values) (slot_number base.now.schema name)) }
    ensures counted { steps.new ≡ steps.old + steps_if (is_marked base.now.schema marks.now name) (length values.values) }
{
    if !marks.has(base.schema(), name) {
        return Ok(Derived::Kept(base.number(name)));
    }
    Ok(Derived::New(prop_part(alloc, values, steps)?))
}

/// What a slot of the places where edges start or end gets. A new part takes a step for each edge, and the places are moved into it.
pub(crate) fn place_slot<L: Ledger>(
    alloc: Global,
    base: &Snapshot,
    marks: &Marks,
    name: SlotName,
    places: List<i32>,
    steps: &mut Steps<L>,
) -> Result<Derived, NoMemory>
    requires slot { HasSlot base.now.schema name }
    requires few { length places < 4294967296 }
    ensures slot { IfOk result (λ d. d ≡ derived_if (is_marked base.now.schema marks.now name) (integers places) (slot_number base.now.schema name)) }
    ensures counted { steps.new ≡ steps.old + steps_if (is_marked base.now.schema marks.now name) (length places) }
{
    if !marks.has(base.schema(), name) {
        return Ok(Derived::Kept(base.number(name)));
    }
    Ok(Derived::New(place_part(alloc, places, steps)?))
}

/// What a slot gets that lists for each vertex the edges that leave it, or enter it: `places` are where the edges start, or end. A
/// new part takes a step for each edge.
pub(crate) fn row_slot<L: Ledger>(
    alloc: Global,
    base: &Snapshot,
    marks: &Marks,
    name: SlotName,
    places: &[i32],
    steps: &mut Steps<L>,
) -> Result<Derived, NoMemory>
    requires slot { HasSlot base.now.schema name }
    requires places { ArePlaces places.now }
    requires few { length places.now < 4294967295 }
    ensures slot { IfOk result (λ d. d ≡ derived_if (is_marked base.now.schema marks.now name) (edge_rows (places_told places.now)) (slot_number base.now.schema name)) }
    ensures counted { OnOk result (steps.new ≡ steps.old + steps_if (is_marked base.now.schema marks.now name) (length places.now)) }
    ensures least { steps.old ≤ steps.new }
    ensures most { steps.new ≤ steps.old + steps_if (is_marked base.now.schema marks.now name) (length places.now) }
{
    if !marks.has(base.schema(), name) {
        return Ok(Derived::Kept(base.number(name)));
    }
    Ok(Derived::New(row_part(alloc, places, steps)?))
}
