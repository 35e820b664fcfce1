//! The parts of a graph.
ghost use Rattle.std.specs.Prelude.{◌≡◌, ◌≤◌, ◌+◌, ◌*◌, map, IfOk, OnOk};
ghost use Rattle.graph_model.specs.Graph.{vertex_total, edge_total, cell_total};
ghost use Rattle.graph_slots.specs.Slots.{slots};
ghost use Rattle.graph_slots.specs.Meaning.{slot_value};
ghost use Rattle.graph_columns.specs.Keys.{vertex_keys, edge_keys};

use crate::TableIndex;
use crate::table_parts::{push_edge_tables, push_vertex_tables};
use column_types::{List, NoMemory, Shared, Steps};
use graph_model::{Graph, GraphColumns};
use graph_schema::Schema;
use graph_slots::Part;
use std::alloc::Global;
use std::sync::ledger::Ledger;

/// A schema, what each of its slots holds in slot order, and where the keys of each vertex table and of each edge table stand.
#[derive(Drop)]
pub struct GraphParts {
    pub schema: Schema,
    pub parts: List<Part>,
    pub vertices: List<Shared<TableIndex>>,
    pub edges: List<Shared<TableIndex>>,
}

/// The parts of a graph, and the indexes of its keys. Columns and indexes are moved: no key is hashed, and nothing is copied
/// but what rows need. It counts a step for each property cell, for each vertex its key, and for each edge its key, its two
/// places and its two rows; where memory runs out, no more than these.
pub fn all_parts<L: Ledger>(
    alloc: Global,
    graph: Graph,
    steps: &mut Steps<L>,
) -> Result<GraphParts, NoMemory>
    ensures schema { IfOk result (λ made. made.schema ≡ graph.schema) }
    ensures parts { IfOk result (λ made. made.parts ≡ map (slot_value graph) (slots graph.schema)) }
    ensures vertices { IfOk result (λ made. made.vertices ≡ vertex_keys graph) }
    ensures edges { IfOk result (λ made. made.edges ≡ edge_keys graph) }
    ensures counted { OnOk result (steps.new ≡ steps.old + (cell_total graph + vertex_total graph + 5 * edge_total graph)) }
    ensures least { steps.old ≤ steps.new }
    ensures most { steps.new ≤ steps.old + (cell_total graph + vertex_total graph + 5 * edge_total graph) }
{
    graph.sound();
    let GraphColumns {
        schema,
        vertices,
        edges,
    } = graph.into_columns(alloc)?;
    let mut parts = List::new(alloc);
    let mut vertex_indexes = List::new(alloc);
    let mut edge_indexes = List::new(alloc);
    push_vertex_tables(alloc, vertices, &mut parts, &mut vertex_indexes, steps)?;
    push_edge_tables(alloc, edges, &mut parts, &mut edge_indexes, steps)?;
    Ok(GraphParts {
        schema,
        parts,
        vertices: vertex_indexes,
        edges: edge_indexes,
    })
}
