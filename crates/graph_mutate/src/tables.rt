//! The slots of graphs of the same vertices with new edge tables.
ghost use Rattle.std.specs.Prelude.{◌≡◌, ◌+◌, false, None, IfOk, OnOk, sum_by};
ghost use Rattle.graph_slots.specs.Slots.{slots};
ghost use Rattle.graph_mutate.specs.Derives.{derived_slots};
ghost use Rattle.graph_mutate.specs.Mutated.{of_vertex_table};
ghost use Rattle.graph_mutate.specs.Steps.{steps_unless_kept};
ghost use Rattle.graph_mutate.specs.Simplified.{simplified};
ghost use Rattle.graph_mutate.specs.Undirected.{undirected, mixed_table, keys_are_spent, is_too_big};

use crate::derived::kept_vertex_slots;
use crate::edge_slots::push_edge_slots;
use crate::simplify::simple_edges;
use crate::undirect::{greatest_key, straight_places, with_reverses};
use column_types::{List, NoMemory, Steps};
use graph_snap::{Derived, Snapshot};
use std::alloc::Global;
use std::sync::ledger::Ledger;

/// The slots of the graph with reverse edges.
pub(crate) fn undirected_slots<L: Ledger>(
    alloc: Global,
    base: &Snapshot,
    steps: &mut Steps<L>,
) -> Result<List<Derived>, NoMemory>
    requires mixed { mixed_table base.now ≡ None }
    requires spent { keys_are_spent base.now ≡ false }
    requires big { is_too_big base.now ≡ false }
    ensures slots { IfOk result (λ derived. derived ≡ derived_slots base.now (undirected base.now) of_vertex_table (slots base.now.schema)) }
    ensures counted { OnOk result (steps.new ≡ steps.old + sum_by (λ x. steps_unless_kept (undirected base.now) x (of_vertex_table x)) (slots base.now.schema)) }
{
    base.sound();
    let mut derived = kept_vertex_slots(alloc, base)?;
    let mut last = greatest_key(base);
    for table in 0..base.schema().edges().len() as u32 {
        let single = straight_places(alloc, base, table)?;
        let lists = with_reverses(alloc, base, table, single.as_slice(), last)?;
        last += single.len() as i64;
        push_edge_slots(alloc, base, table, lists, &mut derived, steps)?;
    }
    Ok(derived)
}

/// The slots of the graph without loops and with one edge for each pair of ends.
pub(crate) fn simplified_slots<L: Ledger>(
    alloc: Global,
    base: &Snapshot,
    steps: &mut Steps<L>,
) -> Result<List<Derived>, NoMemory>
    ensures slots { IfOk result (λ derived. derived ≡ derived_slots base.now (simplified base.now) of_vertex_table (slots base.now.schema)) }
    ensures counted { OnOk result (steps.new ≡ steps.old + sum_by (λ x. steps_unless_kept (simplified base.now) x (of_vertex_table x)) (slots base.now.schema)) }
{
    base.sound();
    let mut derived = kept_vertex_slots(alloc, base)?;
    for table in 0..base.schema().edges().len() as u32 {
        let lists = simple_edges(alloc, base, table)?;
        push_edge_slots(alloc, base, table, lists, &mut derived, steps)?;
    }
    Ok(derived)
}
