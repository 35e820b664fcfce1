//! What the definitions over digraphs mean, in words of their own.
ghost use Rattle.std.specs.Prelude.{◌≡◌, ◌↔◌, ℕ, ℤ, ◌<◌, List as Items, Option as Maybe, length, map, sum};
ghost use Rattle.graph_model.specs.Graph.{GraphData, vertex_total, edge_total};
ghost use Rattle.graph_snap.specs.Reading.{HasVertex, StartsAt, EndsAt};
ghost use Rattle.graph_columns.specs.declared.position.VertexAt.{VertexAt as Vertex};
ghost use Rattle.graph_columns.specs.declared.position.EdgeAt.{EdgeAt as Edge};
ghost use Rattle.algo_digraph.specs.Digraph.{Digraph, Goes};
ghost use Rattle.algo_digraph.specs.Walks.{AreConnected, IsHopDistance, IsLabel, IsLeastWeight};
ghost use Rattle.algo_digraph.specs.Cores.{IsCoreNumber};
ghost use Rattle.algo_digraph.specs.DigraphOf.{digraph_of, table_sizes, IsPosition, index_of, index_in};

/// A vertex has at most one hop distance and one least weight from another, one label and one core number.
pub fn values_are_unique()
    ensures hops { (g : Digraph) (a b : ℕ) (x y : Maybe ℕ) → IsHopDistance g a b x → IsHopDistance g a b y → x ≡ y }
    ensures labels { (g : Digraph) (v l m : ℕ) → IsLabel g v l → IsLabel g v m → l ≡ m }
    ensures cores { (g : Digraph) (v j k : ℕ) → IsCoreNumber g v j → IsCoreNumber g v k → j ≡ k }
    ensures weights { (g : Digraph) (weights : Items ℕ) (a b : ℕ) (x y : Maybe ℤ)
        → IsLeastWeight g weights a b x → IsLeastWeight g weights a b y → x ≡ y }
{}

/// Two vertices have the same label exactly where they are connected.
pub fn labels_tell_components()
    ensures { (g : Digraph) (a b l m : ℕ) → IsLabel g a l → IsLabel g b m → (l ≡ m) ↔ AreConnected g a b }
{}

/// Indexes rise from table to table and within a table from place to place, so each position has an index of its own.
pub fn indexes_rise_by_positions()
    ensures tables { (sizes : Items ℕ) (a b : Vertex) → IsPosition sizes a → a.table < b.table → index_of sizes a < index_of sizes b }
    ensures places { (sizes : Items ℕ) (a b : Vertex) → a.table ≡ b.table → a.place < b.place → index_of sizes a < index_of sizes b }
    ensures one { (sizes : Items ℕ) (a b : Vertex) → IsPosition sizes a → IsPosition sizes b → index_of sizes a ≡ index_of sizes b → a ≡ b }
{}

/// The digraph of a graph has its vertices and edges: the number of an edge is how many edges stand before it, by tables and
/// places, and it goes from the index of the vertex where it starts to that of the one where it ends.
pub fn digraphs_have_the_edges_of_their_graphs()
    ensures positions { (g : GraphData) (at : Vertex) → HasVertex g at ↔ IsPosition (table_sizes g) at }
    ensures vertices { (g : GraphData) → sum (table_sizes g) ≡ vertex_total g }
    ensures edges { (g : GraphData) → length (digraph_of g).edges ≡ edge_total g }
    ensures goes { (g : GraphData) (e : Edge) (a b : Vertex) → StartsAt g e a → EndsAt g e b
        → Goes (digraph_of g) (index_in (map length g.edges) e.table e.place) (index_of (table_sizes g) a) (index_of (table_sizes g) b) }
{}
