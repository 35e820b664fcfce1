//! The call over snapshots.
ghost use Rattle.std.specs.Prelude.{◌≡◌, ℕ, ◌<◌, ◌≤◌, IfOk, length, slice_index};
ghost use Rattle.graph_model.specs.Graph.{vertex_total};
ghost use Rattle.algo_digraph.specs.Cores.{IsCoreNumber};
ghost use Rattle.algo_digraph.specs.DigraphOf.{digraph_of};

use crate::cores::digraph_core_numbers;
use algo_digraph::{FlatDigraph, VertexOrder};
use column_types::{List, NoMemory};
use graph_snap::Snapshot;
use std::alloc::Global;
use std::thread::Threads;

/// For each vertex its core number: the greatest k such that it lies in a set of vertices each of which has at least k edge ends
/// inside the set. A loop has two ends, parallel edges count each, and edges of all tables count alike.
///
/// The list has an entry for each vertex of the graph, by index: table by table, and in a table by places. It does not depend
/// on `workers`, the number of threads, from 1 to 64. The snapshot's own rows are read. The memory is in proportion to the vertices,
/// and with several workers to the vertices and edges. Running out of memory is the only error.
pub fn core_numbers<R: Threads + Sync>(
    rt: &R,
    alloc: Global,
    on: &Snapshot,
    workers: u32,
) -> Result<List<u64>, NoMemory>
    requires workers { (1 ≤ workers) × (workers ≤ 64) }
    ensures len { IfOk result (λ cores. length cores ≡ vertex_total on.now) }
    ensures each { IfOk result (λ cores. (v : ℕ) → v < vertex_total on.now → IsCoreNumber (digraph_of on.now) v (slice_index cores v)) }
{
    let order = VertexOrder::new(alloc, on)?;
    let digraph = FlatDigraph::new(alloc, on, &order)?;
    let cores = digraph_core_numbers(rt, alloc, &digraph, workers)?;
    Ok(cores)
}
