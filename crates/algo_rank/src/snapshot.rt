//! The calls over snapshots.
ghost use Rattle.std.specs.Prelude.{◌≡◌, ℕ, ◌<◌, ◌≤◌, IfOk, length, slice_index, sum};
ghost use Rattle.graph_model.specs.Graph.{vertex_total};
ghost use Rattle.algo_digraph.specs.DigraphOf.{digraph_of};
ghost use Rattle.algo_rank.specs.Classes.{IsStrongLabel};
ghost use Rattle.algo_rank.specs.Ranks.{rank_after};

use crate::rounds::digraph_rank;
use crate::strong::digraph_strong_labels;
use algo_digraph::{FlatDigraph, VertexOrder};
use column_types::{List, NoMemory};
use graph_snap::Snapshot;
use std::alloc::Global;
use std::thread::Threads;

/// For each vertex its strong label: the least index of the vertices to which and from which walks lead, itself among them. Edges of
/// all tables are taken in their direction, so two vertices have the same label exactly where they lie in one strong component.
///
/// The list has an entry for each vertex of the graph, by index: table by table, and in a table by places (`VertexOrder` of
/// `algo_digraph` turns positions into indexes and back). One thread makes it, whatever number of workers, from 1 to 64, is given. The
/// snapshot's own rows are read, and the memory is in proportion to the vertices and edges. Running out of memory is the only error.
pub fn strong_components<R: Threads + Sync>(
    _rt: &R,
    alloc: Global,
    on: &Snapshot,
    _workers: u32,
) -> Result<List<u64>, NoMemory>
    requires workers { (1 ≤ _workers) × (_workers ≤ 64) }
    ensures len { IfOk result (λ labels. length labels ≡ vertex_total on.now) }
    ensures each { IfOk result (λ labels. (v : ℕ) → v < vertex_total on.now → IsStrongLabel (digraph_of on.now) v (slice_index labels v)) }
{
    let order = VertexOrder::new(alloc, on)?;
    let digraph = FlatDigraph::new(alloc, on, &order)?;
    let labels = digraph_strong_labels(alloc, &digraph)?;
    Ok(labels)
}

/// For each vertex its rank after so many rounds, from 0 to 100, in units of 1 / 4294967296. Before the first round all vertices
/// have the same rank. In a round each vertex gets 15 hundredths of what it had then, and each edge that leaves a vertex hands on 85
/// hundredths of the vertex's rank, divided by the number of these edges. Each of these quotients drops its remainder, so the ranks
/// together are at most 4294967296. Edges of all tables count alike, parallel edges and loops each.
///
/// The list has an entry for each vertex of the graph, by index: table by table, and in a table by places (`VertexOrder` of
/// `algo_digraph` turns positions into indexes and back). It does not depend on `workers`, the number of threads, from 1 to 64. The
/// snapshot's own rows are read, and the memory is in proportion to the vertices. Running out of memory is the only error.
pub fn rank<R: Threads + Sync>(
    rt: &R,
    alloc: Global,
    on: &Snapshot,
    rounds: u32,
    workers: u32,
) -> Result<List<u64>, NoMemory>
    requires rounds { rounds ≤ 100 }
    requires workers { (1 ≤ workers) × (workers ≤ 64) }
    ensures len { IfOk result (λ ranks. length ranks ≡ vertex_total on.now) }
    ensures each { IfOk result (λ ranks. (v : ℕ) → v < vertex_total on.now → slice_index ranks v ≡ rank_after (digraph_of on.now) rounds v) }
    ensures sum { IfOk result (λ ranks. sum ranks ≤ 4294967296) }
{
    let order = VertexOrder::new(alloc, on)?;
    let digraph = FlatDigraph::new(alloc, on, &order)?;
    digraph.sound();
    let ranks = digraph_rank(rt, alloc, &digraph, rounds, workers)?;
    Ok(ranks)
}
