//! Core numbers of the vertices of a graph.
//!
//! [`core_numbers`] gives for each vertex the greatest k such that the vertex lies in a set of vertices each of which has at
//! least k edge ends inside the set. A loop has two ends, and parallel edges count each.
//!
//! It peels: of the vertices that are left those with the fewest edge ends among them get that count as their number and go,
//! and their neighbors' counts fall, but not below the level, which is that number. So a count says whether a vertex can still
//! lose edge ends, and no mark is looked up for an edge. The first counts are read off the lengths of the rows. Each edge is looked
//! at when one of its ends goes, and where all vertices that are left go none is.
//!
//! Vertices that come down to the level are queued. With several workers all queued vertices go at once where they are at least
//! 4,096: each thread looks up the neighbors of its part of them and lists those whose counts are above the level, and one thread
//! counts them off. Else the last one goes. The vertices that are left are gone over once for each level. The numbers do not
//! depend on the number of workers. No clause speaks of time, and no test: it is measured, in docs/PERFORMANCE.md.
//!
//! What core numbers are stands in `algo_digraph`: `specs/Cores.antt` and, for the digraph of a graph, `specs/DigraphOf.antt`.
#![tactic(auto)]

mod cores;
mod peel;
mod snapshot;
mod wave;

pub use snapshot::core_numbers;
