//! The registry of the columns in use.
ghost use Rattle.std.specs.Prelude.{◌≡◌, ◌+◌, ◌<◌, ◌≤◌, ◌^◌, ◌++◌, [], ◌∷◌, All, IfOk, length};
ghost use Rattle.column_reclaim.specs.Registry.{IsListed, times, raised, ids_of};
ghost use Rattle.graph_snap.specs.Sharing.{graph_parts};
ghost use Rattle.catalogue_state.specs.State.{snaps_of};
ghost use Rattle.catalogue.specs.Kept.{option_to_list};
ghost use Rattle.catalogue.specs.Registry.{new_rows, AreCounted, AreReleased};

use crate::{Held, Snap};
use column_reclaim::{Registry, RegistryRow};
use column_types::{List, NoMemory, Shared};
use graph_slots::Part;
use graph_snap::Snapshot;
use std::alloc::Global;

/// One more holder of each part of a snapshot, in slot order. Nothing of them is copied.
pub(crate) fn shared_parts(alloc: Global, shot: &Snapshot) -> Result<List<Part>, NoMemory>
    ensures { IfOk result (λ parts. parts ≡ graph_parts shot.now) }
{
    let mut made = List::new(alloc);
    for slot in 0..shot.slot_count() {
        made.push(shot.part(slot).share()?)?;
    }
    Ok(made)
}

/// Lists new parts under the numbers from the first on. It takes no memory.
fn add_parts(registry: &mut Registry<Part>, first: u64, parts: List<Part>)
    requires spare { length parts ≤ registry.old.spare }
    requires greatest { All (λ r. r.id < first) registry.old.rows }
    requires numbers { first + length parts < 2 ^ 64 }
    ensures { registry.new.rows ≡ registry.old.rows ++ new_rows first parts }
{
    let mut id = first;
    for part in parts.into_vec() {
        registry.add(id, part);
        id += 1;
    }
}

/// Counts the columns of a snapshot that comes: those that it keeps once more, and its new parts, which are listed under the
/// numbers from the first on. It takes no memory.
pub(crate) fn count_columns(
    registry: &mut Registry<Part>,
    kept: &[u64],
    first: u64,
    new: List<Part>,
)
    requires listed { All (IsListed registry.old.rows) kept.now }
    requires room { All (λ r. r.count + times r.id kept.now < 2 ^ 64) registry.old.rows }
    requires spare { length new ≤ registry.old.spare }
    requires greatest { All (λ r. r.id < first) registry.old.rows }
    requires numbers { first + length new < 2 ^ 64 }
    ensures { registry.new.rows ≡ raised kept.now registry.old.rows ++ new_rows first new }
{
    registry.retain(kept);
    add_parts(registry, first, new);
}

/// Counts the columns of a snapshot that comes and has no new ones. It takes no memory.
pub(crate) fn retain_snap(registry: &mut Registry<Part>, snap: &Snap)
    requires listed { All (IsListed registry.old.rows) snap.now.columns }
    requires room { All (λ r. r.count + times r.id snap.now.columns < 2 ^ 64) registry.old.rows }
    ensures { registry.new.rows ≡ raised snap.now.columns registry.old.rows }
{
    registry.retain(snap.columns.as_slice());
}

/// Gives up the columns of a snapshot that goes. It takes no memory.
pub(crate) fn release_snap(registry: &mut Registry<Part>, snap: &Snap)
    requires { AreCounted registry.old.rows (snap.now ∷ []) }
    ensures { AreReleased registry.old.rows (snap.now ∷ []) registry.new.rows }
{
    registry.release(snap.columns.as_slice());
}

/// Gives up the columns of a snapshot, where one goes. It takes no memory.
pub(crate) fn release_gone(registry: &mut Registry<Part>, gone: Option<Shared<Snap>>)
    requires { AreCounted registry.old.rows (option_to_list gone) }
    ensures { AreReleased registry.old.rows (option_to_list gone) registry.new.rows }
{
    if let Some(snap) = gone {
        release_snap(registry, snap.get());
    }
}

/// Gives up the columns of graphs that go. It takes no memory.
pub(crate) fn release_graphs(registry: &mut Registry<Part>, held: &[Held])
    requires { AreCounted registry.old.rows (snaps_of held.now) }
    ensures { AreReleased registry.old.rows (snaps_of held.now) registry.new.rows }
{
    for graph in held {
        release_snap(registry, graph.snap.get());
    }
}

/// Gives up the columns of snapshots that go. It takes no memory.
pub(crate) fn release_snaps(registry: &mut Registry<Part>, snaps: &[Shared<Snap>])
    requires { AreCounted registry.old.rows snaps.now }
    ensures { AreReleased registry.old.rows snaps.now registry.new.rows }
{
    for snap in snaps {
        release_snap(registry, snap.get());
    }
}

/// The numbers of the columns in use, in rising order.
pub(crate) fn listed(alloc: Global, rows: &[RegistryRow<Part>]) -> Result<List<u64>, NoMemory>
    ensures { IfOk result (λ ids. ids ≡ ids_of rows.now) }
{
    let mut made = List::new(alloc);
    for row in rows {
        made.push(row.id)?;
    }
    Ok(made)
}
