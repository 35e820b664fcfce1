//! How marks spread along edges.
ghost use Rattle.std.specs.Prelude.{◌≡◌, ◌≢◌, ◌↔◌, ℕ, ◌+◌, ◌<◌, IsTrue, IfOk, OnOk, Contains, Some, None, length, sum_by};
ghost use Rattle.algo_digraph.specs.Digraph.{Goes};
ghost use Rattle.algo_reach.specs.Marks.{mark_of, unmarked, HasSource, IsMarking};

use algo_digraph::{FlatDigraph, Marks};
use column_types::{List, NoMemory};
use std::alloc::Global;

/// Marks the vertex, where it has no mark, and lists it then.
fn mark_vertex(marks: &mut Marks, found: &mut List<u32>, v: u32, mark: u32) -> Result<(), NoMemory>
    requires vertex { v < length marks.old }
    requires mark { mark < 4294967295 }
    ensures marking { OnOk result (IsMarking (λ w. w ≡ v) mark marks.old marks.new found.old found.new) }
    ensures marked { OnOk result (mark_of marks.new v ≢ None) }
{
    if marks.is_free(v) {
        marks.set(v, mark);
        found.push(v)?;
    }
    Ok(())
}

/// Marks each vertex without a mark to which an edge goes from `v`, and lists these.
pub(crate) fn mark_targets(
    digraph: &FlatDigraph<'_>,
    marks: &mut Marks,
    found: &mut List<u32>,
    v: u32,
    mark: u32,
) -> Result<(), NoMemory>
    requires long { length marks.old ≡ digraph.now.vertices }
    requires mark { mark < 4294967295 }
    ensures marking { OnOk result (IsMarking (λ w. (e : ℕ) × Goes digraph.now e v w) mark marks.old marks.new found.old found.new) }
    ensures all { OnOk result ((e w : ℕ) → Goes digraph.now e v w → mark_of marks.new w ≢ None) }
{
    for arc in digraph.out_arcs(v) {
        mark_vertex(marks, found, arc.vertex, mark)?;
    }
    Ok(())
}

/// Whether an edge goes to `v` from a vertex with the mark.
pub(crate) fn has_source(digraph: &FlatDigraph<'_>, marks: &Marks, v: u32, mark: u32) -> bool
    requires long { length marks.now ≡ digraph.now.vertices }
    requires mark { mark < 4294967295 }
    ensures { IsTrue result ↔ HasSource digraph.now marks.now mark v }
{
    for arc in digraph.in_arcs(v) {
        if marks.has(arc.vertex, mark) {
            return true;
        }
    }
    false
}

/// Of `n` vertices those that have a mark now and had none before.
pub(crate) fn newly_marked(
    alloc: Global,
    n: u32,
    old: &Marks,
    new: &Marks,
) -> Result<List<u32>, NoMemory>
    requires old { length old.now ≡ n }
    requires new { length new.now ≡ n }
    requires kept { (v : ℕ) → mark_of old.now v ≢ None → mark_of new.now v ≢ None }
    ensures listed { IfOk result (λ found. (v : ℕ) → Contains found v → (v < length old.now) × (mark_of old.now v ≡ None) × (mark_of new.now v ≢ None)) }
    ensures has { IfOk result (λ found. (v : ℕ) → v < length old.now → mark_of old.now v ≡ None → mark_of new.now v ≢ None → Contains found v) }
    ensures count { IfOk result (λ found. length found + sum_by unmarked new.now ≡ sum_by unmarked old.now) }
{
    let mut found = List::new(alloc);
    for v in 0..n {
        if is_new(old, new, v) {
            found.push(v)?;
        }
    }
    Ok(found)
}

fn is_new(old: &Marks, new: &Marks, v: u32) -> bool
    requires old { v < length old.now }
    requires new { v < length new.now }
    ensures { IsTrue result ↔ ((mark_of old.now v ≡ None) × (mark_of new.now v ≢ None)) }
{
    if !old.is_free(v) {
        return false;
    }
    !new.is_free(v)
}
