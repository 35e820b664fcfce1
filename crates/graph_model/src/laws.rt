//! Laws of the definitions of changes.
ghost use Rattle.std.specs.Prelude.{◌≡◌, ◌↔◌, ◌+◌, ℕ, ℤ, List as Items, slice_get, Some, IsTrue};
ghost use Rattle.graph_schema.specs.Schema.{SchemaData};
ghost use Rattle.graph_schema.specs.declared.schema.Keys.TheVariants.{Whole};
ghost use Rattle.graph_model.specs.declared.change.Change.{Change as AChange};
ghost use Rattle.graph_model.specs.declared.row.EdgeRow.{EdgeRow};
ghost use Rattle.graph_model.specs.Graph.{GraphData, IsGraph, vertex_key, edge_key, is_end};
ghost use Rattle.graph_model.specs.Change.{apply, after};
ghost use Rattle.graph_model.specs.KeysAndEnds.{KeysNameRows, KeysNameRowsOfTables, SomeEdgeEndsAt};

/// After no changes a graph is as it was, and after one more change it is what that change makes of it.
pub fn changes_are_made_in_turn()
    ensures none { (g : GraphData) (changes : Items AChange) → after g changes 0 ≡ g }
    ensures next { (g : GraphData) (changes : Items AChange) (k : ℕ) (c : AChange) → slice_get changes k ≡ Some c → after g changes (k + 1) ≡ apply (after g changes k) c }
{}

/// What changes make of a graph is a graph.
pub fn graphs_stay_graphs()
    ensures one { (g : GraphData) (c : AChange) → IsGraph g → IsGraph (apply g c) }
    ensures all { (g : GraphData) (changes : Items AChange) (k : ℕ) → IsGraph g → IsGraph (after g changes k) }
{}

/// Under `Whole` a key names one vertex and one edge of the graph, under `PerTable` one vertex and one edge of each table.
pub fn keys_name_rows()
    ensures vertices { (g : GraphData) → IsGraph g → g.schema.keys ≡ Whole → KeysNameRows vertex_key g.vertices }
    ensures edges { (g : GraphData) → IsGraph g → g.schema.keys ≡ Whole → KeysNameRows edge_key g.edges }
    ensures vertices_of_tables { (g : GraphData) → IsGraph g → KeysNameRowsOfTables vertex_key g.vertices }
    ensures edges_of_tables { (g : GraphData) → IsGraph g → KeysNameRowsOfTables edge_key g.edges }
{}

/// The test of a deleted vertex finds exactly the edges that start or end at it, in whichever edge table they stand.
pub fn ends_are_those_of_edges()
    ensures { (s : SchemaData) (t : ℕ) (k : ℤ) (edges : Items (Items EdgeRow)) → IsTrue (is_end s t k edges) ↔ SomeEdgeEndsAt s t k edges }
{}
