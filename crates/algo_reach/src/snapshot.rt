//! The calls over snapshots.
ghost use Rattle.std.specs.Prelude.{◌≡◌, ℕ, ◌<◌, ◌≤◌, IfOk, None, length, slice_index, slice_index_or};
ghost use Rattle.graph_model.specs.Graph.{vertex_total};
ghost use Rattle.graph_snap.specs.Reading.{HasVertex};
ghost use Rattle.algo_digraph.specs.Walks.{IsHopDistance, IsLabel};
ghost use Rattle.algo_digraph.specs.DigraphOf.{digraph_of, table_sizes, index_of};

use crate::forest::forest_components;
use crate::levels::digraph_hops;
use algo_digraph::{FlatDigraph, VertexOrder};
use column_types::{List, NoMemory};
use graph_snap::{Snapshot, VertexAt};
use std::alloc::Global;
use std::thread::Threads;

/// For each vertex the fewest edges of a directed walk to it from the vertex `from`, which is 0 for that vertex itself, and
/// `None` where there is no walk. Edges of all tables count alike.
///
/// The list has an entry for each vertex of the graph, by index: table by table, and in a table by places (`VertexOrder` of
/// `algo_digraph` turns positions into indexes and back). It does not depend on `workers`, the number of threads, from 1 to 64. The
/// snapshot's own rows are read, and the memory is in proportion to the vertices. Running out of memory is the only error.
pub fn hops<R: Threads + Sync>(
    rt: &R,
    alloc: Global,
    on: &Snapshot,
    from: VertexAt,
    workers: u32,
) -> Result<List<Option<u64>>, NoMemory>
    requires from { HasVertex on.now from }
    requires workers { (1 ≤ workers) × (workers ≤ 64) }
    ensures len { IfOk result (λ found. length found ≡ vertex_total on.now) }
    ensures each { IfOk result (λ found. (v : ℕ) → v < vertex_total on.now
        → IsHopDistance (digraph_of on.now) (index_of (table_sizes on.now) from) v (slice_index_or found v None)) }
{
    let order = VertexOrder::new(alloc, on)?;
    let digraph = FlatDigraph::new(alloc, on, &order)?;
    let found = digraph_hops(rt, alloc, &digraph, order.index(from), workers)?;
    Ok(found)
}

/// For each vertex the least index of the vertices that are connected to it, itself among them. Edges of all tables are taken
/// either way, so two vertices have the same label exactly where they lie in one weakly connected component.
///
/// The list has an entry for each vertex of the graph, by index: table by table, and in a table by places. One thread makes it,
/// whatever number of workers, from 1 to 64, is given. The snapshot's own rows are read, and the memory is in proportion to the
/// vertices. Running out of memory is the only error.
pub fn components<R: Threads + Sync>(
    _rt: &R,
    alloc: Global,
    on: &Snapshot,
    _workers: u32,
) -> Result<List<u64>, NoMemory>
    requires workers { (1 ≤ _workers) × (_workers ≤ 64) }
    ensures len { IfOk result (λ labels. length labels ≡ vertex_total on.now) }
    ensures each { IfOk result (λ labels. (v : ℕ) → v < vertex_total on.now → IsLabel (digraph_of on.now) v (slice_index labels v)) }
{
    let order = VertexOrder::new(alloc, on)?;
    let digraph = FlatDigraph::new(alloc, on, &order)?;
    let labels = forest_components(alloc, &digraph)?;
    Ok(labels)
}
