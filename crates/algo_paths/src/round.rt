//! Relaxing all edges by one round over all vertices.
ghost use Rattle.std.specs.Prelude.{◌≡◌, ◌⊎◌, ℕ, ◌+◌, ◌*◌, ◌<◌, ◌≤◌, ◌^◌, IfOk, OnOk, List as Items, All, Contains, [], length, sum, slice_index};
ghost use Rattle.algo_paths.specs.Queue.{entry_of};
ghost use Rattle.algo_paths.specs.Search.{IsProgress, IsNextBest};

use crate::queue::Queue;
use algo_digraph::FlatDigraph;
use column_types::{List, NoMemory};
use par_rounds::round;
use std::alloc::Global;
use std::thread::Threads;

/// Relaxes all vertices, so those of any wave.
pub(crate) fn wide_wave<R: Threads + Sync>(
    rt: &R,
    alloc: Global,
    digraph: &FlatDigraph<'_>,
    weights: &[u64],
    best: &mut List<u64>,
    queue: &mut Queue,
    workers: u32,
) -> Result<(), NoMemory>
    requires weights { length weights.now ≡ length digraph.now.edges }
    requires fit { All (λ w. w < 2 ^ 63) weights.now }
    requires long { length best.old ≡ digraph.now.vertices }
    requires low { (v : ℕ) → slice_index best.old v ≤ 2 ^ 63 }
    requires workers { (1 ≤ workers) × (workers ≤ 64) }
    ensures { OnOk result ((wave : Items ℕ) → IsProgress digraph.now weights.now wave [] best.old best.new queue.old queue.new) }
{
    let next = weight_round(rt, alloc, digraph, weights, best.as_slice(), workers)?;
    queue_better(
        queue,
        digraph.vertex_count(),
        best.as_slice(),
        next.as_slice(),
    )?;
    *best = next;
    Ok(())
}

/// Queues the vertices that have a better weight than before.
fn queue_better(queue: &mut Queue, n: u32, old: &[u64], new: &[u64]) -> Result<(), NoMemory>
    requires old { length old.now ≡ n }
    requires new { length new.now ≡ n }
    requires lower { (v : ℕ) → slice_index new.now v ≤ slice_index old.now v }
    ensures better { OnOk result ((v : ℕ) → slice_index new.now v < slice_index old.now v → Contains queue.new (entry_of new.now v)) }
    ensures queued { OnOk result ((x : ℕ × ℕ) → Contains queue.new x → Contains queue.old x ⊎ (x.1 < n)) }
    ensures work { OnOk result (2 * sum new.now + length queue.new ≤ 2 * sum old.now + length queue.old) }
{
    for v in 0..n {
        queue_one(queue, v, old[v as usize], new[v as usize])?;
    }
    Ok(())
}

/// Queues a vertex, where its weight is better than before.
fn queue_one(queue: &mut Queue, v: u32, old: u64, new: u64) -> Result<(), NoMemory>
    requires { new ≤ old }
    ensures better { OnOk result (new < old → Contains queue.new (new, v)) }
    ensures stays { OnOk result ((x : ℕ × ℕ) → Contains queue.old x → Contains queue.new x) }
    ensures queued { OnOk result ((x : ℕ × ℕ) → Contains queue.new x → Contains queue.old x ⊎ (x.1 ≡ v)) }
    ensures work { OnOk result (2 * new + length queue.new ≤ 2 * old + length queue.old) }
{
    if old <= new {
        return Ok(());
    }
    queue.push(v, new)?;
    Ok(())
}

fn weight_round<R: Threads + Sync>(
    rt: &R,
    alloc: Global,
    digraph: &FlatDigraph<'_>,
    weights: &[u64],
    best: &[u64],
    workers: u32,
) -> Result<List<u64>, NoMemory>
    requires weights { length weights.now ≡ length digraph.now.edges }
    requires fit { All (λ w. w < 2 ^ 63) weights.now }
    requires long { length best.now ≡ digraph.now.vertices }
    requires low { (v : ℕ) → slice_index best.now v ≤ 2 ^ 63 }
    requires workers { (1 ≤ workers) × (workers ≤ 64) }
    ensures len { IfOk result (λ next. length next ≡ digraph.now.vertices) }
    ensures each { IfOk result (λ next. (v : ℕ) → v < digraph.now.vertices → IsNextBest digraph.now weights.now best.now v (slice_index next v)) }
{
    round(
        rt,
        alloc,
        workers,
        digraph.vertex_count(),
        |v: u32| -> u64
            requires { (v < digraph.now.vertices) × (length weights.now ≡ length digraph.now.edges) × (All (λ w. w < 2 ^ 63) weights.now)
                × (length best.now ≡ digraph.now.vertices) × ((u : ℕ) → slice_index best.now u ≤ 2 ^ 63) }
            ensures { IsNextBest digraph.entry.now weights.entry.now best.entry.now v result }
        { next_best(digraph, weights, best, v) },
    )
}

/// The least of a vertex's weight and those by way of the edges that enter it.
fn next_best(digraph: &FlatDigraph<'_>, weights: &[u64], best: &[u64], v: u32) -> u64
    requires vertex { v < digraph.now.vertices }
    requires weights { length weights.now ≡ length digraph.now.edges }
    requires fit { All (λ w. w < 2 ^ 63) weights.now }
    requires long { length best.now ≡ digraph.now.vertices }
    requires low { (u : ℕ) → slice_index best.now u ≤ 2 ^ 63 }
    ensures { IsNextBest digraph.now weights.now best.now v result }
{
    let mut least = best[v as usize];
    for arc in digraph.in_arcs(v) {
        least = least.min(best[arc.vertex as usize] + weights[arc.edge as usize]);
    }
    least
}
