//! Where the edges of a vertex's lines stand in a snapshot.
ghost use Rattle.std.specs.Prelude.{◌≡◌, ◌≢◌, ◌<◌, [], All, map, filter, length, slice_get, Some};
ghost use Rattle.std.specs.Ordering.{int_eq};
ghost use Rattle.graph_schema.specs.declared.schema.Keys.TheVariants.{Whole};
ghost use Rattle.graph_model.specs.Graph.{edge_key, source_at, destination_at};
ghost use Rattle.graph_snap.specs.Reading.{vertex_keys_at, edge_keys_at, out_places, in_places};
ghost use Rattle.journal_text.specs.Ends.{all_edges, leaving, entering, leaving_in, entering_in, keys_at};

use graph_snap::{Snapshot, VertexAt};

/// The rows of a vertex list exactly the edges of a table that leave, or enter, the vertex of this key of its table, in the same
/// order. A table whose edges start, or end, in another vertex table has none.
pub fn rows_list_the_edges_of_a_key(on: &Snapshot, at: VertexAt, key: i64, edges: u32)
    requires { slice_get (vertex_keys_at on.now at.table) at.place ≡ Some key }
    ensures leaving { keys_at (edge_keys_at on.now edges) (out_places on.now at.table at.place edges) ≡ leaving_in on.now at.table key edges }
    ensures entering { keys_at (edge_keys_at on.now edges) (in_places on.now at.table at.place edges) ≡ entering_in on.now at.table key edges }
    ensures out_there { All (λ place. place < length (edge_keys_at on.now edges)) (out_places on.now at.table at.place edges) }
    ensures in_there { All (λ place. place < length (edge_keys_at on.now edges)) (in_places on.now at.table at.place edges) }
    ensures none_leaves { source_at on.now.schema edges ≢ at.table → leaving_in on.now at.table key edges ≡ [] }
    ensures none_enters { destination_at on.now.schema edges ≢ at.table → entering_in on.now at.table key edges ≡ [] }
{
    on.sound();
}

/// Where keys differ over all tables, a key alone tells the vertex: the edges that leave it, or enter it, are those of all tables
/// whose source, or destination, is the key.
pub fn keys_of_whole_graphs_tell_the_vertex(on: &Snapshot, at: VertexAt, key: i64)
    requires keys { on.now.schema.keys ≡ Whole }
    requires there { slice_get (vertex_keys_at on.now at.table) at.place ≡ Some key }
    ensures leaving { leaving on.now at.table key ≡ map edge_key (filter (λ edge. int_eq edge.source key) (all_edges on.now)) }
    ensures entering { entering on.now at.table key ≡ map edge_key (filter (λ edge. int_eq edge.destination key) (all_edges on.now)) }
{
    on.sound();
}
