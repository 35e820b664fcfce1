//! Hop distances, level by level.
ghost use Rattle.std.specs.Prelude.{◌≡◌, ◌≢◌, ℕ, ◌+◌, ◌<◌, ◌≤◌, ◌^◌, IfOk, OnOk, Contains, Some, None, [], length, slice_index_or};
ghost use Rattle.algo_digraph.specs.Digraph.{Goes};
ghost use Rattle.algo_digraph.specs.Walks.{IsHopDistance};
ghost use Rattle.algo_digraph.specs.Marks.{mark_in};
ghost use Rattle.algo_reach.specs.Marks.{mark_of, HasSource, IsMarking, IsPulled};

use crate::marks::{has_source, mark_targets, newly_marked};
use algo_digraph::{FlatDigraph, Marks, UNMARKED, is_wide};
use column_types::{List, NoMemory};
use par_rounds::round;
use std::alloc::Global;
use std::thread::Threads;

/// For each vertex the fewest edges of a directed walk to it from the vertex `from`, and `None` where there is no walk.
pub(crate) fn digraph_hops<R: Threads + Sync>(
    rt: &R,
    alloc: Global,
    digraph: &FlatDigraph<'_>,
    from: u32,
    workers: u32,
) -> Result<List<Option<u64>>, NoMemory>
    requires from { from < digraph.now.vertices }
    requires workers { (1 ≤ workers) × (workers ≤ 64) }
    ensures len { IfOk result (λ found. length found ≡ digraph.now.vertices) }
    ensures each { IfOk result (λ found. (v : ℕ) → v < digraph.now.vertices → IsHopDistance digraph.now from v (slice_index_or found v None)) }
{
    let mut distances = Marks::none(alloc, digraph.vertex_count())?;
    distances.set(from, 0);
    let mut frontier = List::new(alloc);
    frontier.push(from)?;
    let mut level = 0;
    let mut left = digraph.vertex_count() as usize;
    'levels: while !frontier.is_empty() {
        left = left.saturating_sub(frontier.len());
        frontier = next_level(
            rt,
            alloc,
            digraph,
            &mut distances,
            frontier.as_slice(),
            level,
            left,
            workers,
        )?;
        level += 1;
    }
    let found = distances.to_options(alloc)?;
    Ok(found)
}

/// Marks what one edge more reaches from the vertices of a level, and lists these. At most `left` vertices have no mark: where
/// these are few, no round looks for them.
fn next_level<R: Threads + Sync>(
    rt: &R,
    alloc: Global,
    digraph: &FlatDigraph<'_>,
    distances: &mut Marks,
    frontier: &[u32],
    level: u32,
    left: usize,
    workers: u32,
) -> Result<List<u32>, NoMemory>
    requires long { length distances.old ≡ digraph.now.vertices }
    requires level { level < 2 ^ 31 }
    requires here { (v : ℕ) → Contains frontier.now v → mark_of distances.old v ≡ Some level }
    requires workers { (1 ≤ workers) × (workers ≤ 64) }
    ensures marking { IfOk result (λ next. IsMarking (HasSource digraph.now distances.old level) (level + 1) distances.old distances.new [] next) }
    ensures all { OnOk result ((e u w : ℕ) → Contains frontier.now u → Goes digraph.now e u w → mark_of distances.new w ≢ None) }
{
    if is_wide(workers, frontier.len().min(left), digraph.vertex_count()) {
        return wide_level(rt, alloc, digraph, distances, frontier, level, workers);
    }
    narrow_level(alloc, digraph, distances, frontier, level)
}

/// The same by a round over all vertices.
fn wide_level<R: Threads + Sync>(
    rt: &R,
    alloc: Global,
    digraph: &FlatDigraph<'_>,
    distances: &mut Marks,
    frontier: &[u32],
    level: u32,
    workers: u32,
) -> Result<List<u32>, NoMemory>
    requires long { length distances.old ≡ digraph.now.vertices }
    requires level { level < 2 ^ 31 }
    requires here { (v : ℕ) → Contains frontier.now v → mark_of distances.old v ≡ Some level }
    requires workers { (1 ≤ workers) × (workers ≤ 64) }
    ensures marking { IfOk result (λ next. IsMarking (HasSource digraph.now distances.old level) (level + 1) distances.old distances.new [] next) }
    ensures all { OnOk result ((e u w : ℕ) → Contains frontier.now u → Goes digraph.now e u w → mark_of distances.new w ≢ None) }
{
    let _ = frontier;
    let next = distance_round(rt, alloc, digraph, distances, level, workers)?;
    let found = newly_marked(alloc, digraph.vertex_count(), distances, &next)?;
    *distances = next;
    Ok(found)
}

fn distance_round<R: Threads + Sync>(
    rt: &R,
    alloc: Global,
    digraph: &FlatDigraph<'_>,
    distances: &Marks,
    level: u32,
    workers: u32,
) -> Result<Marks, NoMemory>
    requires long { length distances.now ≡ digraph.now.vertices }
    requires level { level < 2 ^ 31 }
    requires workers { (1 ≤ workers) × (workers ≤ 64) }
    ensures len { IfOk result (λ next. length next ≡ digraph.now.vertices) }
    ensures each { IfOk result (λ next. (v : ℕ) → v < digraph.now.vertices
        → IsPulled (HasSource digraph.now distances.now level v) (level + 1) (mark_of distances.now v) (mark_of next v)) }
{
    let cells = round(
        rt,
        alloc,
        workers,
        digraph.vertex_count(),
        |v: u32| -> u32
            requires { (v < digraph.now.vertices) × (length distances.now ≡ digraph.now.vertices) × (level < 2 ^ 31) }
            ensures { IsPulled (HasSource digraph.entry.now distances.entry.now level v) (level + 1) (mark_of distances.entry.now v) (mark_in result) }
        { next_distance(digraph, distances, level, v) },
    )?;
    Ok(Marks::from_cells(cells))
}

/// What is kept of the distance of a vertex after a level.
fn next_distance(digraph: &FlatDigraph<'_>, distances: &Marks, level: u32, v: u32) -> u32
    requires vertex { v < digraph.now.vertices }
    requires long { length distances.now ≡ digraph.now.vertices }
    requires level { level < 2 ^ 31 }
    ensures { IsPulled (HasSource digraph.now distances.now level v) (level + 1) (mark_of distances.now v) (mark_in result) }
{
    if !distances.is_free(v) {
        return distances.cell(v);
    }
    if has_source(digraph, distances, v, level) {
        return level + 1;
    }
    UNMARKED
}

/// The same, vertex by vertex.
fn narrow_level(
    alloc: Global,
    digraph: &FlatDigraph<'_>,
    distances: &mut Marks,
    frontier: &[u32],
    level: u32,
) -> Result<List<u32>, NoMemory>
    requires long { length distances.old ≡ digraph.now.vertices }
    requires level { level < 2 ^ 31 }
    requires here { (v : ℕ) → Contains frontier.now v → mark_of distances.old v ≡ Some level }
    ensures marking { IfOk result (λ next. IsMarking (HasSource digraph.now distances.old level) (level + 1) distances.old distances.new [] next) }
    ensures all { OnOk result ((e u w : ℕ) → Contains frontier.now u → Goes digraph.now e u w → mark_of distances.new w ≢ None) }
{
    let mut next = List::new(alloc);
    for v in frontier {
        mark_targets(digraph, distances, &mut next, *v, level + 1)?;
    }
    Ok(next)
}
