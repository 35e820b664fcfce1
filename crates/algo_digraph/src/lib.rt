//! The digraph of a graph: what algorithms work on, without tables and keys.
//!
//! A `Digraph` of `specs/Digraph.antt` has vertices by index and edges by number. `specs/Walks.antt` says what hop distances,
//! labels of components and least weights are, by walks; `specs/Cores.antt` says what core numbers are, by sets of vertices. The
//! digraph of a graph, `digraph_of` of `specs/DigraphOf.antt`, has the graph's vertices in order of their positions, and its edges
//! by tables and places.
//!
//! * [`VertexOrder`] turns positions of vertices into indexes and back.
//! * [`FlatDigraph`] is the digraph of a snapshot. Nothing is copied: it lends the snapshot's rows and places, table by table.
//!   `out_arcs` and `in_arcs` give the edges that leave and enter a vertex, each as an [`Arc`]: its number, and the vertex at its
//!   other end; `out_degree` and `in_degree` say how many these are, and read no edge.
//! * [`Marks`] has a number or none for each vertex, in four bytes.
//! * [`is_wide`] says when a level of a search is worth a round of several threads.
//!
//! The laws of these definitions are the functions of `laws.rt`: what their clauses say holds, and they do nothing.
#![tactic(auto)]

mod arcs;
mod flat;
mod laws;
mod marks;
mod order;
mod side;

pub use arcs::{Arc, Arcs};
pub use flat::{FlatDigraph, is_wide};
pub use laws::{
    digraphs_have_the_edges_of_their_graphs, indexes_rise_by_positions, labels_tell_components,
    values_are_unique,
};
pub use marks::{Marks, UNMARKED};
pub use order::VertexOrder;
