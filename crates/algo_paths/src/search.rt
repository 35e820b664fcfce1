//! Least weights over a digraph.
ghost use Rattle.std.specs.Prelude.{◌≡◌, ℕ, ◌+◌, ◌*◌, ◌<◌, ◌≤◌, ◌^◌, IfOk, OnOk, All, Contains, None, [], length, slice_index, slice_index_or, replicate};
ghost use Rattle.algo_digraph.specs.Walks.{IsLeastWeight};
ghost use Rattle.algo_paths.specs.Search.{IsProgress, IsTold};

use crate::queue::Queue;
use crate::relax::narrow_wave;
use crate::round::wide_wave;
use algo_digraph::{FlatDigraph, is_wide};
use column_types::{List, NoMemory};
use std::alloc::Global;
use std::thread::Threads;

/// Above each weight that is told.
const FAR: u64 = 9_223_372_036_854_775_808;

/// For each vertex the least weight of a walk to it from the vertex `from`, where one is below 2 ^ 63. The weights are those of the edges, in order.
pub(crate) fn digraph_least_weights<R: Threads + Sync>(
    rt: &R,
    alloc: Global,
    digraph: &FlatDigraph<'_>,
    weights: &[u64],
    from: u32,
    workers: u32,
) -> Result<List<Option<i64>>, NoMemory>
    requires from { from < digraph.now.vertices }
    requires weights { length weights.now ≡ length digraph.now.edges }
    requires fit { All (λ w. w < 2 ^ 63) weights.now }
    requires workers { (1 ≤ workers) × (workers ≤ 64) }
    ensures len { IfOk result (λ found. length found ≡ digraph.now.vertices) }
    ensures each { IfOk result (λ found. (v : ℕ) → v < digraph.now.vertices
        → IsLeastWeight digraph.now weights.now from v (slice_index_or found v None)) }
{
    let mut best = no_weights(alloc, digraph.vertex_count())?;
    best.set(from as usize, 0);
    let mut queue = Queue::new(alloc)?;
    queue.push(from, 0)?;
    'waves: while let Some(wave) = queue.next_wave(alloc, best.as_slice())? {
        relax_wave(
            rt,
            alloc,
            digraph,
            weights,
            &mut best,
            &mut queue,
            wave.as_slice(),
            workers,
        )?;
    }
    let found = told(alloc, best.as_slice())?;
    Ok(found)
}

/// No weight yet for each of `n` vertices.
fn no_weights(alloc: Global, n: u32) -> Result<List<u64>, NoMemory>
    ensures { IfOk result (λ best. best ≡ replicate n 9223372036854775808) }
{
    let best = vec![in alloc; FAR; n as usize]?;
    Ok(List::from_vec(best))
}

/// Relaxes the vertices of a wave.
fn relax_wave<R: Threads + Sync>(
    rt: &R,
    alloc: Global,
    digraph: &FlatDigraph<'_>,
    weights: &[u64],
    best: &mut List<u64>,
    queue: &mut Queue,
    wave: &[u32],
    workers: u32,
) -> Result<(), NoMemory>
    requires weights { length weights.now ≡ length digraph.now.edges }
    requires fit { All (λ w. w < 2 ^ 63) weights.now }
    requires long { length best.old ≡ digraph.now.vertices }
    requires low { (v : ℕ) → slice_index best.old v ≤ 2 ^ 63 }
    requires wave { (v : ℕ) → Contains wave.now v → v < digraph.now.vertices }
    requires workers { (1 ≤ workers) × (workers ≤ 64) }
    ensures { OnOk result (IsProgress digraph.now weights.now wave.now [] best.old best.new queue.old queue.new) }
{
    if is_wide(workers, wave.len(), digraph.vertex_count()) {
        return wide_wave(rt, alloc, digraph, weights, best, queue, workers);
    }
    narrow_wave(digraph, weights, best, queue, wave)
}

/// The weights that are below the limit.
fn told(alloc: Global, best: &[u64]) -> Result<List<Option<i64>>, NoMemory>
    ensures len { IfOk result (λ found. length found ≡ length best.now) }
    ensures each { IfOk result (λ found. (v : ℕ) → v < length best.now → IsTold (slice_index best.now v) (slice_index_or found v None)) }
{
    let mut found = Vec::with_capacity(alloc, best.len())?;
    for weight in best {
        found.push(tell(*weight))?;
    }
    Ok(List::from_vec(found))
}

fn tell(weight: u64) -> Option<i64>
    ensures { IsTold weight result }
{
    if weight < FAR {
        return Some(weight as i64);
    }
    None
}
