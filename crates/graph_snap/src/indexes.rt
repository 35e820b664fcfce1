//! The indexes of a snapshot's keys, one for each table.
ghost use Rattle.std.specs.Prelude.{◌≡◌, ◌≢◌, ◌<◌, ◌≤◌, ℕ, ℤ, List as Items, All, length, slice_get, Some, IsNone, IfSome, IfOk};
ghost use Rattle.graph_model.specs.Keys.{rows_at};
ghost use Rattle.graph_slots.specs.Meaning.{longs};
ghost use Rattle.graph_columns.specs.Keys.{vertex_keys, edge_keys};
ghost use Rattle.graph_snap.specs.Seen.{Stands, graph_of};
ghost use Rattle.graph_snap.specs.Reading.{IsLeast};
ghost use Rattle.graph_snap.specs.Sharing.{IsKnown, part_of, parts_of};
ghost use Rattle.graph_snap.specs.Indexes.{slot_keys, AreIndexes};

use crate::{Derived, Snapshot};
use column_types::{List, NoMemory, Shared};
use graph_columns::TableIndex;
use graph_slots::{Layout, Part, SlotName};
use std::alloc::Global;

/// The index of the keys that a part holds, made anew.
fn part_index(alloc: Global, parts: &[Part], slot: u32) -> Result<Shared<TableIndex>, NoMemory>
    requires { slice_get parts.now slot ≡ Some (longs (slot_keys parts.now slot)) }
    ensures { IfOk result (λ index. index ≡ slot_keys parts.now slot) }
{
    match &parts[slot as usize] {
        Part::Cells(column) => {
            let index = TableIndex::of_column(alloc, column.share()?)?;
            Ok(Shared::new(alloc, index)?)
        }
        Part::Rows(_) => unreachable!(),
    }
}

/// The index that is known for a slot.
fn known_index(known: &[Option<Shared<TableIndex>>], slot: u32) -> Option<&Shared<TableIndex>>
    ensures { IfSome result (λ index. slice_get known.now slot ≡ Some (Some index.now)) }
{
    known.get(slot as usize)?.as_ref()
}

/// The index of the keys that a slot holds: the one that is known, else one that is made anew.
fn slot_index(
    alloc: Global,
    parts: &[Part],
    known: &[Option<Shared<TableIndex>>],
    slot: u32,
) -> Result<Shared<TableIndex>, NoMemory>
    requires keys { slice_get parts.now slot ≡ Some (longs (slot_keys parts.now slot)) }
    requires known { AreIndexes parts.now known.now }
    ensures { IfOk result (λ index. index ≡ slot_keys parts.now slot) }
{
    match known_index(known, slot) {
        Some(index) => index.share(),
        None => part_index(alloc, parts, slot),
    }
}

/// The index of each vertex table's keys. Those that are known are shared, and the others are made of the parts.
pub(crate) fn vertex_indexes(
    alloc: Global,
    layout: &Layout,
    parts: &[Part],
    known: &[Option<Shared<TableIndex>>],
) -> Result<List<Shared<TableIndex>>, NoMemory>
    requires stands { Stands (graph_of layout.now parts.now) parts.now }
    requires known { AreIndexes parts.now known.now }
    ensures { IfOk result (λ indexes. indexes ≡ vertex_keys (graph_of layout.now parts.now)) }
{
    layout.schema().sound();
    let mut indexes = List::new(alloc);
    for table in 0..layout.schema().vertices().len() as u32 {
        let slot = layout.number(SlotName::VertexKey(table));
        indexes.push(slot_index(alloc, parts, known, slot)?)?;
    }
    Ok(indexes)
}

/// The index of each edge table's keys. Those that are known are shared, and the others are made of the parts.
pub(crate) fn edge_indexes(
    alloc: Global,
    layout: &Layout,
    parts: &[Part],
    known: &[Option<Shared<TableIndex>>],
) -> Result<List<Shared<TableIndex>>, NoMemory>
    requires stands { Stands (graph_of layout.now parts.now) parts.now }
    requires known { AreIndexes parts.now known.now }
    ensures { IfOk result (λ indexes. indexes ≡ edge_keys (graph_of layout.now parts.now)) }
{
    layout.schema().sound();
    let mut indexes = List::new(alloc);
    for table in 0..layout.schema().edges().len() as u32 {
        let slot = layout.number(SlotName::EdgeKey(table));
        indexes.push(slot_index(alloc, parts, known, slot)?)?;
    }
    Ok(indexes)
}

/// The base's index of the keys that a slot keeps, where it keeps those of a table.
fn kept_index(base: &Snapshot, derived: &Derived) -> Result<Option<Shared<TableIndex>>, NoMemory>
    requires { IsKnown base.now derived.now }
    ensures { IfOk result (λ index. (keys : Items ℤ) → index ≡ Some keys → part_of base.now derived.now ≡ longs keys) }
{
    match derived {
        Derived::Kept(slot) => base.shared_index(*slot),
        Derived::New(_) => Ok(None),
    }
}

/// For each slot the base's index of the keys that it keeps, where it keeps those of a table.
pub(crate) fn kept_indexes(
    alloc: Global,
    base: &Snapshot,
    derived: &[Derived],
) -> Result<List<Option<Shared<TableIndex>>>, NoMemory>
    requires { All (IsKnown base.now) derived.now }
    ensures { IfOk result (λ known. AreIndexes (parts_of base.now derived.now) known) }
{
    let mut known = List::new(alloc);
    for slot in derived {
        known.push(kept_index(base, slot)?)?;
    }
    Ok(known)
}

/// The row of least position that has a key: the place of its table, and its place in that table.
pub(crate) fn first_row(indexes: &[Shared<TableIndex>], key: i64) -> Option<(u32, u32)>
    requires { length indexes.now ≤ 32 }
    ensures found { IfSome result (λ at. slice_get (rows_at indexes.now at.0) at.1 ≡ Some key) }
    ensures least { IfSome result (λ at. IsLeast (rows_at indexes.now) key at.0 at.1) }
    ensures missing { IsNone result → (t p : ℕ) → slice_get (rows_at indexes.now t) p ≢ Some key }
{
    for (table, index) in indexes.iter().enumerate() {
        if let Some(place) = index.get().find(key) {
            return Some((table as u32, place));
        }
    }
    None
}
