//! Changes that are made one after the other in the graph of a snapshot.
ghost use Rattle.std.specs.Prelude.{◌≡◌, ◌≤◌, ◌+◌, IfOk, OnOk};
ghost use Rattle.graph_slots.specs.declared.slot.SlotName.{SlotName as AName};
ghost use Rattle.graph_slots.specs.Numbers.{HasSlot};
ghost use Rattle.graph_slots.specs.Touched.{touched, skipped as skipped_of};
ghost use Rattle.delta_fold.specs.Folded.{folded, folded_slots};
ghost use Rattle.delta_fold.specs.Steps.{new_steps};
ghost use Rattle.delta_fold.specs.Marked.{is_marked};

use crate::marks::Marks;
use crate::slots::marked_slots;
use column_types::{List, NoMemory, Steps};
use graph_model::{ApplyFault, Change, Graph};
use graph_snap::{Derived, Snapshot};
use std::alloc::Global;
use std::sync::ledger::Ledger;

/// What each slot of the new snapshot gets, and how many changes were skipped.
#[derive(Drop)]
pub(crate) struct FoldedSlots {
    pub derived: List<Derived>,
    pub skipped: u64,
}

/// A graph after changes, the marks of the slots that they touched, and how many of them did not fit and were skipped.
#[derive(Drop)]
struct Applied {
    graph: Graph,
    marks: Marks,
    skipped: u64,
}

/// Makes changes one after the other in a plain copy of a snapshot's graph. One that does not fit changes and marks nothing.
fn apply_all(alloc: Global, base: &Snapshot, changes: &[Change]) -> Result<Applied, NoMemory>
    ensures graph { IfOk result (λ a. a.graph ≡ folded base.now changes.now) }
    ensures marks { IfOk result (λ a. (x : AName) → HasSlot base.now.schema x → is_marked base.now.schema a.marks x ≡ touched base.now changes.now x) }
    ensures skipped { IfOk result (λ a. a.skipped ≡ skipped_of base.now changes.now) }
{
    let mut graph = base.to_graph(alloc)?;
    let mut marks = Marks::new(alloc, base.schema())?;
    let mut skipped = 0;
    for change in changes {
        match graph.apply(alloc, change) {
            Ok(()) => marks.mark(base.schema(), change),
            Err(ApplyFault::Misfit(_)) => skipped += 1,
            Err(ApplyFault::NoMemory) => return Err(NoMemory),
        }
    }
    Ok(Applied {
        graph,
        marks,
        skipped,
    })
}

/// What each slot gets after changes: they are made in a plain copy of the base's graph, and new parts are made of its columns.
pub(crate) fn slots_by_graph<L: Ledger>(
    alloc: Global,
    base: &Snapshot,
    changes: &[Change],
    steps: &mut Steps<L>,
) -> Result<FoldedSlots, NoMemory>
    ensures slots { IfOk result (λ f. f.derived ≡ folded_slots base.now changes.now) }
    ensures skipped { IfOk result (λ f. f.skipped ≡ skipped_of base.now changes.now) }
    ensures counted { OnOk result (steps.new ≡ steps.old + new_steps base.now changes.now) }
    ensures least { steps.old ≤ steps.new }
    ensures most { steps.new ≤ steps.old + new_steps base.now changes.now }
{
    let Applied {
        graph,
        marks,
        skipped,
    } = apply_all(alloc, base, changes)?;
    let derived = marked_slots(alloc, base, graph, &marks, steps)?;
    Ok(FoldedSlots { derived, skipped })
}
