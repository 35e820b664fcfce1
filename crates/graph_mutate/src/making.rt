//! Snapshots of graphs that are changed as a whole.
ghost use Rattle.std.specs.Prelude.{◌≡◌, ◌≤◌, ◌+◌, false, None, map, IfOk, OnOk};
ghost use Rattle.graph_slots.specs.Slots.{slots};
ghost use Rattle.graph_snap.specs.Sharing.{IsBuiltOn};
ghost use Rattle.graph_mutate.specs.declared.mutation.Mutation.TheVariants.{Clone as OfClone, Transpose as OfTranspose, Undirect as OfUndirect, Simplify as OfSimplify, SortByDegree as OfSortByDegree};
ghost use Rattle.graph_mutate.specs.Mutated.{Mutates, IsMutated};
ghost use Rattle.graph_mutate.specs.Steps.{new_steps, most_steps};
ghost use Rattle.graph_mutate.specs.Undirected.{mixed_table as mixed, keys_are_spent as spent, is_too_big as too_big};

use crate::derived::{cloned_slots, transposed_slots};
use crate::schema::turned_schema;
use crate::sorting::sorted_slots;
use crate::tables::{simplified_slots, undirected_slots};
use crate::undirect::{is_too_big, keys_are_spent, mixed_table};
use crate::{MutateFault, Mutation};
use column_types::{List, NoMemory, Steps};
use graph_snap::{Built, Snapshot};
use std::alloc::Global;
use std::sync::ledger::Ledger;

/// The snapshot of the changed graph with the parts that it shares with the base, or the first reason for which there is none.
/// It counts a step for each row of each part that it makes, so none where all parts are kept, and at most one for each row of each
/// slot that counts as new.
pub fn mutate<L: Ledger>(
    alloc: Global,
    base: &Snapshot,
    how: Mutation,
    steps: &mut Steps<L>,
) -> Result<Built, MutateFault>
    ensures answer { Mutates how base.now result }
    ensures shares { IfOk result (IsBuiltOn base.now) }
    ensures counted { OnOk result (steps.new ≡ steps.old + new_steps how base.now) }
    ensures most { new_steps how base.now ≤ most_steps how base.now }
{
    match how {
        Mutation::Clone => Ok(cloned(alloc, base)?),
        Mutation::Transpose => Ok(transposed(alloc, base)?),
        Mutation::Undirect => undirected(alloc, base, steps),
        Mutation::Simplify => Ok(simplified(alloc, base, steps)?),
        Mutation::SortByDegree => Ok(sorted(alloc, base, steps)?),
    }
}

/// The graph itself. No part is made.
fn cloned(alloc: Global, base: &Snapshot) -> Result<Built, NoMemory>
    ensures answer { IfOk result (IsMutated OfClone base.now) }
    ensures shares { IfOk result (IsBuiltOn base.now) }
{
    base.sound();
    let derived = cloned_slots(alloc, base)?;
    Snapshot::derive(alloc, base, base.schema().clone()?, derived, 0)
}

/// The graph with the ends of each edge swapped. No part is made.
fn transposed(alloc: Global, base: &Snapshot) -> Result<Built, NoMemory>
    ensures answer { IfOk result (IsMutated OfTranspose base.now) }
    ensures shares { IfOk result (IsBuiltOn base.now) }
{
    base.sound();
    let derived = transposed_slots(alloc, base)?;
    let schema = turned_schema(alloc, base.schema())?;
    Snapshot::derive(alloc, base, schema, derived, 0)
}

/// The graph with a reverse edge for each edge that is no loop, or why it has no room for them. The parts of vertex tables are
/// kept.
fn undirected<L: Ledger>(
    alloc: Global,
    base: &Snapshot,
    steps: &mut Steps<L>,
) -> Result<Built, MutateFault>
    ensures answer { Mutates OfUndirect base.now result }
    ensures shares { IfOk result (IsBuiltOn base.now) }
    ensures counted { OnOk result (steps.new ≡ steps.old + new_steps OfUndirect base.now) }
{
    if let Some(table) = mixed_table(base) {
        return Err(MutateFault::MixedEnds(table));
    }
    if keys_are_spent(base) {
        return Err(MutateFault::KeysSpent);
    }
    if is_too_big(base) {
        return Err(MutateFault::TooBig);
    }
    Ok(with_reverse_edges(alloc, base, steps)?)
}

/// The graph with a reverse edge for each edge that is no loop, where it has room for them.
fn with_reverse_edges<L: Ledger>(
    alloc: Global,
    base: &Snapshot,
    steps: &mut Steps<L>,
) -> Result<Built, NoMemory>
    requires mixed { mixed base.now ≡ None }
    requires spent { spent base.now ≡ false }
    requires big { too_big base.now ≡ false }
    ensures answer { IfOk result (IsMutated OfUndirect base.now) }
    ensures shares { IfOk result (IsBuiltOn base.now) }
    ensures counted { OnOk result (steps.new ≡ steps.old + new_steps OfUndirect base.now) }
{
    base.sound();
    let derived = undirected_slots(alloc, base, steps)?;
    Snapshot::derive(alloc, base, base.schema().clone()?, derived, 0)
}

/// The graph without loops, and with the first edge alone of each pair of ends in each table. The parts of vertex tables are kept.
fn simplified<L: Ledger>(
    alloc: Global,
    base: &Snapshot,
    steps: &mut Steps<L>,
) -> Result<Built, NoMemory>
    ensures answer { IfOk result (IsMutated OfSimplify base.now) }
    ensures shares { IfOk result (IsBuiltOn base.now) }
    ensures counted { OnOk result (steps.new ≡ steps.old + new_steps OfSimplify base.now) }
{
    base.sound();
    let derived = simplified_slots(alloc, base, steps)?;
    Snapshot::derive(alloc, base, base.schema().clone()?, derived, 0)
}

/// No slot of the base for each slot.
fn none_kept(alloc: Global, base: &Snapshot) -> Result<List<Option<u32>>, NoMemory>
    ensures { IfOk result (λ kept. kept ≡ map (λ _. None) (slots base.now.schema)) }
{
    let mut kept = List::new(alloc);
    for _slot in 0..base.slot_count() {
        kept.push(None)?;
    }
    Ok(kept)
}

/// The graph with the vertices of each table by falling degree. All its slots count as new, but the parts of the keys and the values
/// of edges do not change and are the base's, and so are the indexes of the keys.
fn sorted<L: Ledger>(
    alloc: Global,
    base: &Snapshot,
    steps: &mut Steps<L>,
) -> Result<Built, NoMemory>
    ensures answer { IfOk result (IsMutated OfSortByDegree base.now) }
    ensures shares { IfOk result (IsBuiltOn base.now) }
    ensures counted { OnOk result (steps.new ≡ steps.old + new_steps OfSortByDegree base.now) }
{
    base.sound();
    let derived = sorted_slots(alloc, base, steps)?;
    let kept = none_kept(alloc, base)?;
    let built = Snapshot::derive(alloc, base, base.schema().clone()?, derived, 0)?;
    Ok(Built {
        shot: built.shot,
        kept,
        skipped: 0,
    })
}
