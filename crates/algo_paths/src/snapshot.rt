//! The call over snapshots.
ghost use Rattle.std.specs.Prelude.{◌≡◌, ◌≤◌, IfOk, IfErr, length};
ghost use Rattle.graph_model.specs.Graph.{vertex_total};
ghost use Rattle.algo_paths.specs.Answer.{IsCause, IsAnswer};

use crate::PathFault;
use crate::search::digraph_least_weights;
use crate::weights::{edge_weights, has_weight};
use algo_digraph::{FlatDigraph, VertexOrder};
use column_types::{List, Text};
use graph_snap::Snapshot;
use std::alloc::Global;
use std::thread::Threads;

/// For each vertex, in order of indexes, the least sum of weights over all walks to it from the vertex of the key `from` (of
/// those in several tables the one of least position), and `None` where there is no walk or that sum is above
/// 9,223,372,036,854,775,807. The empty walk has the sum 0. The weights are
/// the values of the property `weight` of the edges. The first fault in this order is answered: no vertex has the key; no
/// edge table has a property of that name with whole numbers; and, by tables and places, the first edge whose value is
/// negative or NULL, which it is too where its table lacks the property.
pub fn least_weights<R: Threads + Sync>(
    rt: &R,
    alloc: Global,
    on: &Snapshot,
    from: i64,
    weight: &str,
    workers: u32,
) -> Result<List<Option<i64>>, PathFault>
    requires workers { (1 ≤ workers) × (workers ≤ 64) }
    ensures len { IfOk result (λ found. length found ≡ vertex_total on.now) }
    ensures least { IfOk result (IsAnswer on.now from weight.now) }
    ensures cause { IfErr result (IsCause on.now from weight.now) }
{
    let Some(at) = on.vertex_of_key(from) else {
        return Err(PathFault::NoVertex { key: from });
    };
    if !has_weight(on.schema().edges(), weight) {
        let name = Text::from_str(alloc, weight)?;
        return Err(PathFault::NoProp { name });
    }
    let weights = edge_weights(alloc, on, weight)?;
    let order = VertexOrder::new(alloc, on)?;
    let digraph = FlatDigraph::new(alloc, on, &order)?;
    let start = order.index(at);
    let found = digraph_least_weights(rt, alloc, &digraph, weights.as_slice(), start, workers)?;
    Ok(found)
}
