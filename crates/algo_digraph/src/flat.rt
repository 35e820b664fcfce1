//! The digraph of a snapshot.
ghost use Rattle.std.specs.Prelude.{◌≡◌, ◌↔◌, ◌+◌, ◌*◌, ◌<◌, ◌≤◌, IsTrue, IfOk, All, length};
ghost use Rattle.algo_digraph.specs.Digraph.{Goes, IsClosed};
ghost use Rattle.algo_digraph.specs.Arcs.{out_arcs, in_arcs};
ghost use Rattle.algo_digraph.specs.DigraphOf.{digraph_of, table_sizes};

use crate::VertexOrder;
use crate::arcs::{Arcs, arcs_over, degree_over};
use crate::side::{Side, in_side, out_side};
use column_types::{List, NoMemory};
use graph_snap::Snapshot;
use std::alloc::Global;
use std::marker::Model;

/// The digraph of a snapshot, read from the snapshot's own rows and places, which it lends. Seen as the digraph: vertices by index,
/// edges by number, both by tables and then by places in their table.
#[derive(Drop)]
pub struct FlatDigraph<'a> {
    vertices: u32,
    out: List<Side<'a>>,
    into: List<Side<'a>>,
}

impl<'a> Model for FlatDigraph<'a> {
    ghost use Rattle.std.specs.List.{zip};
    ghost use Rattle.algo_digraph.specs.Digraph.{Digraph};
    ghost use Rattle.algo_digraph.specs.Sides.{all_ends, IsFlat};

    ghost Value = { Digraph };

    ghost view = { λ f. record { vertices = f.vertices; edges = zip (all_ends f.into) (all_ends f.out) } };

    ghost invariant = { λ f. IsFlat f.vertices f.out f.into };
}

impl<'a> FlatDigraph<'a> {
    /// The digraph of a snapshot, in the order of its vertices. It takes time and memory in proportion to the number of tables, and
    /// copies nothing. Running out of memory is the only error.
    pub fn new(
        alloc: Global,
        on: &'a Snapshot,
        order: &VertexOrder,
    ) -> Result<FlatDigraph<'a>, NoMemory>
        requires { order.now ≡ table_sizes on.now }
        ensures { IfOk result (λ digraph. digraph ≡ digraph_of on.now) }
    {
        on.sound();
        let mut out = List::new(alloc);
        let mut into = List::new(alloc);
        let mut first_edge = 0;
        for table in 0..on.schema().edges().len() as u32 {
            out.push(out_side(on, order, table, first_edge))?;
            into.push(in_side(on, order, table, first_edge))?;
            first_edge += on.edge_count(table);
        }
        Ok(FlatDigraph {
            vertices: order.vertex_count(),
            out,
            into,
        })
    }

    /// Tells a proof what every digraph of a snapshot keeps; it does nothing.
    pub fn sound(&self)
        ensures { IsClosed self.now }
    {
        let _ = &self.out;
    }

    /// How many vertices there are.
    pub fn vertex_count(&self) -> u32
        ensures count { result ≡ self.now.vertices }
        ensures few { self.now.vertices ≤ 1048576 }
        ensures few_edges { length self.now.edges ≤ 4194304 }
        ensures closed { IsClosed self.now }
    {
        self.vertices
    }

    /// The edges that leave a vertex, in the order of their numbers, each with the vertex where it ends; none for an index past
    /// the last. A loop leaves its vertex and enters it.
    pub fn out_arcs<'s>(&'s self, v: u32) -> Arcs<'s, 'a>
        ensures arcs { result ≡ out_arcs self.now v }
        ensures each { All (λ a. Goes self.now a.edge v a.vertex) result }
        ensures ends { All (λ a. a.vertex < self.now.vertices) result }
        ensures edges { All (λ a. a.edge < length self.now.edges) result }
        ensures few { length result ≤ length self.now.edges }
    {
        arcs_over(self.out.as_slice(), v)
    }

    /// The edges that enter a vertex, in the order of their numbers, each with the vertex where it starts; none for an index past
    /// the last.
    pub fn in_arcs<'s>(&'s self, v: u32) -> Arcs<'s, 'a>
        ensures arcs { result ≡ in_arcs self.now v }
        ensures each { All (λ a. Goes self.now a.edge a.vertex v) result }
        ensures ends { All (λ a. a.vertex < self.now.vertices) result }
        ensures edges { All (λ a. a.edge < length self.now.edges) result }
        ensures few { length result ≤ length self.now.edges }
    {
        arcs_over(self.into.as_slice(), v)
    }

    /// How many edges leave a vertex: no edge is read, only how long its row is in each table.
    pub fn out_degree(&self, v: u32) -> u32
        ensures count { result ≡ length (out_arcs self.now v) }
        ensures few { result ≤ 4194304 }
    {
        degree_over(self.out.as_slice(), v)
    }

    /// How many edges enter a vertex.
    pub fn in_degree(&self, v: u32) -> u32
        ensures count { result ≡ length (in_arcs self.now v) }
        ensures few { result ≤ 4194304 }
    {
        degree_over(self.into.as_slice(), v)
    }
}

/// A level of a search that has one of so many vertices is worth a round over all of them.
const ROUND_SHARE: u32 = 16;

/// Whether a level of `width` vertices is worth a round over all `vertices` of a digraph: where there are several workers and the
/// level has at least a sixteenth of the vertices. A search whose levels have no vertex in common then has at most sixteen rounds,
/// so its work stays near the number of vertices and edges. No clause of a search speaks of its time: that these rounds are few is
/// neither proved nor tested but measured.
pub fn is_wide(workers: u32, width: usize, vertices: u32) -> bool
    ensures { IsTrue result ↔ ((1 < workers) × (vertices ≤ 16 * width)) }
{
    workers > 1 && width >= vertices.div_ceil(ROUND_SHARE) as usize
}
