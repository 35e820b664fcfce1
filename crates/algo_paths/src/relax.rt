//! Relaxing edges, vertex by vertex.
ghost use Rattle.std.specs.Prelude.{◌≡◌, ℕ, ◌+◌, ◌<◌, ◌≤◌, ◌^◌, OnOk, All, Contains, [], length, slice_index};
ghost use Rattle.algo_digraph.specs.Digraph.{Goes};
ghost use Rattle.algo_paths.specs.Search.{IsProgress, IsRelaxing, IsOffer};

use crate::queue::Queue;
use algo_digraph::FlatDigraph;
use column_types::{List, NoMemory};

/// Relaxes the vertices of a wave, one after another.
pub(crate) fn narrow_wave(
    digraph: &FlatDigraph<'_>,
    weights: &[u64],
    best: &mut List<u64>,
    queue: &mut Queue,
    wave: &[u32],
) -> Result<(), NoMemory>
    requires weights { length weights.now ≡ length digraph.now.edges }
    requires fit { All (λ w. w < 2 ^ 63) weights.now }
    requires long { length best.old ≡ digraph.now.vertices }
    requires low { (v : ℕ) → slice_index best.old v ≤ 2 ^ 63 }
    requires wave { (v : ℕ) → Contains wave.now v → v < digraph.now.vertices }
    ensures { OnOk result (IsProgress digraph.now weights.now wave.now [] best.old best.new queue.old queue.new) }
{
    digraph.sound();
    for v in wave {
        relax_vertex(digraph, weights, best, queue, *v)?;
    }
    Ok(())
}

/// Offers each target of an edge from `v` the weight by way of it.
fn relax_vertex(
    digraph: &FlatDigraph<'_>,
    weights: &[u64],
    best: &mut List<u64>,
    queue: &mut Queue,
    v: u32,
) -> Result<(), NoMemory>
    requires weights { length weights.now ≡ length digraph.now.edges }
    requires fit { All (λ w. w < 2 ^ 63) weights.now }
    requires long { length best.old ≡ digraph.now.vertices }
    requires low { (v : ℕ) → slice_index best.old v ≤ 2 ^ 63 }
    requires vertex { v < digraph.now.vertices }
    ensures relaxing { OnOk result (IsRelaxing digraph.now weights.now v best.old best.new queue.old queue.new) }
    ensures relaxed { OnOk result ((e w : ℕ) → Goes digraph.now e v w → slice_index best.new w ≤ slice_index best.old v + slice_index weights.now e) }
{
    digraph.sound();
    let own = best.as_slice()[v as usize];
    for arc in digraph.out_arcs(v) {
        offer(best, queue, arc.vertex, own + weights[arc.edge as usize])?;
    }
    Ok(())
}

/// Takes a weight for a vertex where it is better, and queues the vertex then.
fn offer(best: &mut List<u64>, queue: &mut Queue, w: u32, weight: u64) -> Result<(), NoMemory>
    requires { w < length best.old }
    ensures { OnOk result (IsOffer w weight best.old best.new queue.old queue.new) }
{
    if best.as_slice()[w as usize] <= weight {
        return Ok(());
    }
    best.set(w as usize, weight);
    queue.push(w, weight)?;
    Ok(())
}
