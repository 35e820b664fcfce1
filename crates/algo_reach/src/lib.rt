//! What is reached in a graph: hop distances from a vertex, and weakly connected components.
//!
//! [`hops`] gives for each vertex the fewest edges of a directed walk to it, and [`components`] the least index of the vertices
//! that are connected to it. `hops` goes level by level: a level with few vertices marks their neighbors one after another, and
//! a level that has at least a sixteenth of all vertices is done by one round in which each vertex looks for a neighbor of
//! that level, by several threads. Where only few vertices can still be without a mark, no round looks for them. `components`
//! joins trees of vertices, edge by edge, on one thread. The values do not depend on the number of workers. The work is
//! meant to stay near the number of vertices and edges (`is_wide` of `algo_digraph` says why); no clause speaks of time, and no
//! test: it is measured, in docs/PERFORMANCE.md.
//!
//! What hop distances and labels are stands in `algo_digraph`: `specs/Walks.antt` and, for the digraph of a graph,
//! `specs/DigraphOf.antt`.
#![tactic(auto)]

mod forest;
mod levels;
mod marks;
mod snapshot;

pub use snapshot::{components, hops};
