//! What the definitions of changed graphs mean, in words of their own.
ghost use Rattle.std.specs.Prelude.{◌≡◌, ◌<◌, ℕ, false, None, Some, length, slice_get};
ghost use Rattle.graph_schema.specs.declared.schema.EdgeTable.{EdgeTable as Shape};
ghost use Rattle.graph_model.specs.Keys.{rows_at};
ghost use Rattle.graph_model.specs.Graph.{IsGraph};
ghost use Rattle.graph_slots.specs.Meaning.{slot_value};
ghost use Rattle.graph_slots.specs.Slots.{slots};
ghost use Rattle.graph_mutate.specs.Transposed.{transposed, turned_slot};
ghost use Rattle.graph_mutate.specs.Undirected.{undirected, mixed_table, is_too_big};
ghost use Rattle.graph_mutate.specs.Simplified.{simplified};
ghost use Rattle.graph_mutate.specs.Sorted.{sorted, row_degree};
ghost use Rattle.graph_mutate.specs.Mutated.{mutated, kept_slots};
ghost use Rattle.graph_mutate.specs.Laws.{HasReverses, IsSimple, IsSorted};

use crate::Mutation;
use graph_model::Graph;
use graph_slots::SlotName;

/// A transposed graph is a graph, each of its slots holds what a slot of the graph holds, and transposing it gives the graph
/// back.
pub fn transposed_graphs_are_graphs(graph: &Graph, slot: SlotName)
    ensures graph { IsGraph (transposed graph.now) }
    ensures slot { slot_value (transposed graph.now) slot ≡ slot_value graph.now (turned_slot slot) }
    ensures twice { transposed (transposed graph.now) ≡ graph.now }
{
    graph.sound();
}

/// An undirected graph is a graph where it is not refused, and has the edges of the graph and, behind those of each table, one
/// reverse edge for each of them that is no loop.
pub fn undirected_graphs_have_reverse_edges(graph: &Graph)
    requires mixed { mixed_table graph.now ≡ None }
    requires big { is_too_big graph.now ≡ false }
    ensures graph { IsGraph (undirected graph.now) }
    ensures tables { (t : ℕ) → t < length graph.now.edges → HasReverses graph.now (undirected graph.now) t }
{
    graph.sound();
}

/// A simplified graph is a graph. It has no loop and no two edges of one table with the same ends, and of those that have them the
/// first stays.
pub fn simplified_graphs_are_simple(graph: &Graph)
    ensures graph { IsGraph (simplified graph.now) }
    ensures tables { (t : ℕ) (x : Shape) → slice_get graph.now.schema.edges t ≡ Some x → IsSimple x (rows_at graph.now.edges t) (rows_at (simplified graph.now).edges t) }
{
    graph.sound();
}

/// A graph whose vertices are sorted by degree is a graph. Each vertex table has the same vertices in another order: by falling
/// degree, and those of one degree stand as they were.
pub fn sorted_graphs_are_sorted(graph: &Graph)
    ensures graph { IsGraph (sorted graph.now) }
    ensures tables { (t : ℕ) → IsSorted (row_degree graph.now t) (rows_at graph.now.vertices t) (rows_at (sorted graph.now).vertices t) }
{
    graph.sound();
}

/// No two slots of a changed graph keep the same slot of the graph. Each number that is kept is the number of a slot of the graph,
/// and the changed graph has as many slots as the graph.
pub fn no_slot_is_kept_twice(graph: &Graph, how: Mutation)
    ensures once { (i j n : ℕ) → slice_get (kept_slots how graph.now) i ≡ Some (Some n) → slice_get (kept_slots how graph.now) j ≡ Some (Some n) → i ≡ j }
    ensures known { (i n : ℕ) → slice_get (kept_slots how graph.now) i ≡ Some (Some n) → n < length (slots graph.now.schema) }
    ensures slots { length (slots (mutated how graph.now).schema) ≡ length (slots graph.now.schema) }
{}
