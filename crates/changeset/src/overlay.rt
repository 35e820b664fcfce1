//! What changes made of a snapshot's graph, as far as it tells whether the next change fits.
ghost use Rattle.std.specs.Prelude.{◌≡◌, ◌<◌, OnOk, length};
ghost use Rattle.graph_model.specs.Graph.{GraphData};
ghost use Rattle.changeset.specs.Facts.{facts, is_there, put, more_ends, fewer_ends};
ghost use Rattle.changeset.specs.Overlay.{told};

use crate::base::{cell_total, edge_in_base, edge_total, vertex_in_base, vertex_total};
use crate::state::{EdgeState, VertexState};
use column_types::NoMemory;
use graph_snap::Snapshot;
use std::alloc::Global;
use std::collections::HashMap;

/// What changes made of a snapshot's graph: the vertices and edges that they touched, by table and key, and how many
/// vertices, edges and values there are now. The snapshot's own indexes tell of all other keys. Its functions are given that
/// snapshot, the base, and `told` of specs/Overlay is what the two tell together.
#[derive(Drop)]
pub(crate) struct Overlay {
    pub vertices: HashMap<(u32, i64), VertexState>,
    pub edges: HashMap<(u32, i64), EdgeState>,
    pub vertex_total: u32,
    pub edge_total: u32,
    pub cell_total: u32,
}

impl Overlay {
    /// No change so far.
    pub(crate) fn new(alloc: Global, base: &Snapshot) -> Overlay
        ensures { told base.now result ≡ facts base.now }
    {
        Overlay {
            vertices: HashMap::new(alloc),
            edges: HashMap::new(alloc),
            vertex_total: vertex_total(base),
            edge_total: edge_total(base),
            cell_total: cell_total(base),
        }
    }

    /// Whether the vertex of a key is there now, and how many ends of edges stand at it.
    pub(crate) fn vertex(&self, base: &Snapshot, table: u32, key: i64) -> VertexState
        requires { table < length base.now.schema.vertices }
        ensures { result ≡ (told base.now self.now).vertex table key }
    {
        match self.vertices.get(&(table, key)) {
            Some(state) => *state,
            None => vertex_in_base(base, table, key),
        }
    }

    /// The ends of the edge of a key, if it is there now.
    pub(crate) fn edge(&self, base: &Snapshot, table: u32, key: i64) -> EdgeState
        requires { table < length base.now.schema.edges }
        ensures { result ≡ (told base.now self.now).edge table key }
    {
        match self.edges.get(&(table, key)) {
            Some(state) => *state,
            None => edge_in_base(base, table, key),
        }
    }

    /// Whether the vertex of a key is there now.
    pub(crate) fn has_vertex(&self, base: &Snapshot, table: u32, key: i64) -> bool
        requires { table < length base.now.schema.vertices }
        ensures { result ≡ ((told base.now self.now).vertex table key).there }
    {
        match self.vertices.get(&(table, key)) {
            Some(state) => state.there,
            None => base.vertex_in(table, key).is_some(),
        }
    }

    /// Whether the edge of a key is there now.
    pub(crate) fn has_edge(&self, base: &Snapshot, table: u32, key: i64) -> bool
        requires { table < length base.now.schema.edges }
        ensures { result ≡ is_there ((told base.now self.now).edge table key) }
    {
        match self.edge(base, table, key) {
            EdgeState::There { .. } => true,
            EdgeState::Gone => false,
        }
    }

    /// How many ends of edges stand now at a vertex.
    pub(crate) fn ends(&self, base: &Snapshot, table: u32, key: i64) -> u32
        requires { table < length base.now.schema.vertices }
        ensures { result ≡ ((told base.now self.now).vertex table key).ends }
    {
        self.vertex(base, table, key).ends
    }

    /// Writes what a vertex is now.
    pub(crate) fn put_vertex(
        &mut self,
        table: u32,
        key: i64,
        state: VertexState,
    ) -> Result<(), NoMemory>
        ensures { OnOk result ((g : GraphData) → told g self.new ≡ record (told g self.old) { vertex = put (told g self.old).vertex table key state }) }
    {
        self.vertices.insert((table, key), state)?;
        Ok(())
    }

    /// Writes what an edge is now.
    pub(crate) fn put_edge(
        &mut self,
        table: u32,
        key: i64,
        state: EdgeState,
    ) -> Result<(), NoMemory>
        ensures { OnOk result ((g : GraphData) → told g self.new ≡ record (told g self.old) { edge = put (told g self.old).edge table key state }) }
    {
        self.edges.insert((table, key), state)?;
        Ok(())
    }

    /// One more end of an edge stands at a vertex.
    pub(crate) fn raise(&mut self, base: &Snapshot, table: u32, key: i64) -> Result<(), NoMemory>
        requires table { table < length base.now.schema.vertices }
        requires few { ((told base.now self.old).vertex table key).ends < 4294967295 }
        ensures { OnOk result (told base.now self.new ≡ record (told base.now self.old) { vertex = more_ends (told base.now self.old).vertex table key }) }
    {
        let mut state = self.vertex(base, table, key);
        state.ends += 1;
        self.put_vertex(table, key, state)
    }

    /// One end of an edge less stands at a vertex. An edge that is there has both ends counted, so the number is never 0 before.
    pub(crate) fn lower(&mut self, base: &Snapshot, table: u32, key: i64) -> Result<(), NoMemory>
        requires { table < length base.now.schema.vertices }
        ensures { OnOk result (told base.now self.new ≡ record (told base.now self.old) { vertex = fewer_ends (told base.now self.old).vertex table key }) }
    {
        let mut state = self.vertex(base, table, key);
        state.ends = state.ends.saturating_sub(1);
        self.put_vertex(table, key, state)
    }
}
