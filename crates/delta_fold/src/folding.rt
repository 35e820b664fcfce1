//! Folding changes into a snapshot.
ghost use Rattle.std.specs.Prelude.{◌≡◌, ◌+◌, ◌≤◌, IfOk, OnOk};
ghost use Rattle.graph_slots.specs.Touched.{skipped as skipped_of};
ghost use Rattle.graph_snap.specs.Sharing.{IsBuiltOn};
ghost use Rattle.delta_fold.specs.Folded.{folded, kept_slots};
ghost use Rattle.delta_fold.specs.Steps.{new_steps, most_steps};

use crate::applied::{FoldedSlots, slots_by_graph};
use column_types::{NoMemory, Steps};
use graph_model::Change;
use graph_snap::{Built, Snapshot};
use std::alloc::Global;
use std::sync::ledger::Ledger;

/// The snapshot that a list of changes makes of another one, the base. A change that does not fit the graph after those before it
/// is skipped and counted. A slot is new exactly where a change that fits touches it, and every other slot shares the part of the
/// base's slot of the same number. A step is counted for each row of each new part: at most one for each row that the table of
/// that slot has in the base, and one for each change. Where memory runs out no more steps are counted than that.
pub fn fold<L: Ledger>(
    alloc: Global,
    base: &Snapshot,
    changes: &[Change],
    steps: &mut Steps<L>,
) -> Result<Built, NoMemory>
    ensures shot { IfOk result (λ built. built.shot ≡ folded base.now changes.now) }
    ensures kept { IfOk result (λ built. built.kept ≡ kept_slots base.now changes.now) }
    ensures skipped { IfOk result (λ built. built.skipped ≡ skipped_of base.now changes.now) }
    ensures shares { IfOk result (IsBuiltOn base.now) }
    ensures counted { OnOk result (steps.new ≡ steps.old + new_steps base.now changes.now) }
    ensures least { steps.old ≤ steps.new }
    ensures no_more { steps.new ≤ steps.old + new_steps base.now changes.now }
    ensures most { new_steps base.now changes.now ≤ most_steps base.now changes.now }
{
    base.sound();
    let FoldedSlots { derived, skipped } = slots_by_graph(alloc, base, changes, steps)?;
    Snapshot::derive(alloc, base, base.schema().clone()?, derived, skipped)
}
