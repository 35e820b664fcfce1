//! Laws of parts and indexes, in words of their own.
ghost use Rattle.std.specs.Prelude.{◌≡◌, ◌+◌, ◌*◌, ℕ, All, Some, length, slice_get, position, sum_by};
ghost use Rattle.std.specs.Ordering.{int_eq};
ghost use Rattle.graph_model.specs.declared.row.VertexRow.{VertexRow};
ghost use Rattle.graph_model.specs.declared.row.EdgeRow.{EdgeRow};
ghost use Rattle.column_types.specs.Column.{ColumnData};
ghost use Rattle.graph_model.specs.declared.columns.GraphColumns.{GraphColumns as Columns};
ghost use Rattle.graph_model.specs.declared.columns.VertexColumns.{VertexColumns as OfVertices};
ghost use Rattle.graph_model.specs.declared.columns.EdgeColumns.{EdgeColumns as OfEdges};
ghost use Rattle.graph_model.specs.IntoColumns.{AreColumnsOf};
ghost use Rattle.graph_model.specs.Keys.{rows_at};
ghost use Rattle.graph_model.specs.Graph.{vertex_total, edge_total, cell_total};
ghost use Rattle.graph_slots.specs.Slots.{slots};
ghost use Rattle.graph_columns.specs.Keys.{vertex_keys_at, edge_keys_at};
ghost use Rattle.graph_slots.specs.declared.part.Part.TheVariants.{Cells};
ghost use Rattle.graph_slots.specs.declared.slot.SlotName.TheVariants.{VertexKey, VertexProp, EdgeKey, Source, Destination, Out, Into, EdgeProp};
ghost use Rattle.graph_slots.specs.Meaning.{slot_value, longs, edge_rows, source_places, destination_places};
ghost use Rattle.graph_slots.specs.declared.slot.SlotName.{SlotName as AName};
ghost use Rattle.graph_columns.specs.SlotSteps.{slot_steps};
ghost use Rattle.graph_columns.specs.TableParts.{IsVertexTable, IsEdgeTable, integers, places_told};

use graph_model::Graph;

/// Each row of a graph is found by its key in its table.
pub fn rows_stand_at_their_keys(graph: &Graph)
    ensures vertices { (t place : ℕ) (row : VertexRow) → slice_get (rows_at graph.now.vertices t) place ≡ Some row → position (λ q. int_eq q row.key) (vertex_keys_at graph.now t) ≡ Some place }
    ensures edges { (t place : ℕ) (row : EdgeRow) → slice_get (rows_at graph.now.edges t) place ≡ Some row → position (λ q. int_eq q row.key) (edge_keys_at graph.now t) ≡ Some place }
{
    graph.sound();
}

/// A slot takes a step for each value of its column, or for each end of which it holds the rows. The steps of all slots are a
/// step for each property cell, for each vertex one, and for each edge five.
pub fn slots_take_all_steps(graph: &Graph)
    ensures columns { (x : AName) (c : ColumnData) → slot_value graph.now x ≡ Cells c → length c.values ≡ slot_steps graph.now x }
    ensures out { (t : ℕ) → length (source_places graph.now t) ≡ slot_steps graph.now (Out t) }
    ensures into { (t : ℕ) → length (destination_places graph.now t) ≡ slot_steps graph.now (Into t) }
    ensures all { sum_by (slot_steps graph.now) (slots graph.now.schema) ≡ cell_total graph.now + vertex_total graph.now + 5 * edge_total graph.now }
{
    graph.sound();
}

/// The columns of a graph hold what its slots hold: the parts that are made of them are those of the slots.
pub fn columns_hold_slots(graph: &Graph)
    ensures vertex_keys { (c : Columns) (x : OfVertices) (t : ℕ) → AreColumnsOf graph.now c → slice_get c.vertices t ≡ Some x → longs x.keys ≡ slot_value graph.now (VertexKey t) }
    ensures vertex_props { (c : Columns) (x : OfVertices) (t p : ℕ) (values : ColumnData) → AreColumnsOf graph.now c → slice_get c.vertices t ≡ Some x → slice_get x.values p ≡ Some values → Cells values ≡ slot_value graph.now (VertexProp t p) }
    ensures edge_keys { (c : Columns) (x : OfEdges) (t : ℕ) → AreColumnsOf graph.now c → slice_get c.edges t ≡ Some x → longs x.keys ≡ slot_value graph.now (EdgeKey t) }
    ensures edge_props { (c : Columns) (x : OfEdges) (t p : ℕ) (values : ColumnData) → AreColumnsOf graph.now c → slice_get c.edges t ≡ Some x → slice_get x.values p ≡ Some values → Cells values ≡ slot_value graph.now (EdgeProp t p) }
    ensures sources { (c : Columns) (x : OfEdges) (t : ℕ) → AreColumnsOf graph.now c → slice_get c.edges t ≡ Some x → integers x.sources ≡ slot_value graph.now (Source t) }
    ensures destinations { (c : Columns) (x : OfEdges) (t : ℕ) → AreColumnsOf graph.now c → slice_get c.edges t ≡ Some x → integers x.destinations ≡ slot_value graph.now (Destination t) }
    ensures out { (c : Columns) (x : OfEdges) (t : ℕ) → AreColumnsOf graph.now c → slice_get c.edges t ≡ Some x → edge_rows (places_told x.sources) ≡ slot_value graph.now (Out t) }
    ensures into { (c : Columns) (x : OfEdges) (t : ℕ) → AreColumnsOf graph.now c → slice_get c.edges t ≡ Some x → edge_rows (places_told x.destinations) ≡ slot_value graph.now (Into t) }
    ensures keep_vertices { (c : Columns) → AreColumnsOf graph.now c → All IsVertexTable c.vertices }
    ensures keep_edges { (c : Columns) → AreColumnsOf graph.now c → All IsEdgeTable c.edges }
{
    graph.sound();
}
