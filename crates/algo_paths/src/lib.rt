//! Least weights of walks in a graph.
//!
//! [`least_weights`] gives for each vertex the least sum of weights over all walks to it from one vertex. The weights are the
//! values of a property of the edges, whole numbers that are not negative.
//!
//! The search takes the vertices in waves, nearest first, all that are equally near in one wave. A wave with few vertices
//! offers their neighbors the weights by way of them; a wave that has at least a sixteenth of all vertices is done by one
//! round in which each vertex takes the least of what its neighbors offer, by several threads. A vertex is in no wave twice, so
//! the work is meant to be that of the edges and of the queue. No clause speaks of time, and no test: it is measured, in
//! docs/PERFORMANCE.md. The values do not depend on the number of workers.
//!
//! What a least weight is stands in `algo_digraph`: `specs/Walks.antt` and, for the digraph of a graph, `specs/DigraphOf.antt`.
#![tactic(auto)]

mod fault;
mod queue;
mod relax;
mod round;
mod search;
mod snapshot;
mod weights;

pub use fault::PathFault;
pub use snapshot::least_weights;
