//! Snapshots.
ghost use Rattle.std.specs.Prelude.{◌≡◌, ◌↔◌, ◌<◌, ◌≤◌, ◌+◌, ◌*◌, ℤ, pos, List as Items, All, true, false, map, length, slice_get, Some, IsNone, IfSome, IfOk, OnOk};
ghost use Rattle.column_types.specs.Value.{cell_value};
ghost use Rattle.csr_rows.specs.Rows.{places_of};
ghost use Rattle.graph_model.specs.Keys.{rows_at};
ghost use Rattle.graph_model.specs.Graph.{IsGraph, vertex_props_at, edge_props_at, source_at, destination_at, has_vertex, has_edge, has_vertex_in, has_edge_in, vertex_total, edge_total, cell_total};
ghost use Rattle.graph_slots.specs.Slots.{slots};
ghost use Rattle.graph_slots.specs.Meaning.{slot_value, longs, vertex_prop_values, edge_prop_values, source_places, destination_places};
ghost use Rattle.graph_slots.specs.declared.part.Part.TheVariants.{Cells as CellsOf, Rows as RowsOf};
ghost use Rattle.graph_slots.specs.Numbers.{slot_number, HasSlot};
ghost use Rattle.graph_snap.specs.Seen.{Stands, IsSnapshot, graph_of, is_column, ends_of};
ghost use Rattle.graph_snap.specs.Reading.{HasVertex, HasEdge, StartsAt, EndsAt, IsLeast, vertex_keys_at, edge_keys_at, out_places, in_places};
ghost use Rattle.graph_snap.specs.Sharing.{graph_parts, IsKnown, parts_of, kept_of, IsBuiltOn};
ghost use Rattle.graph_snap.specs.Indexes.{AreIndexes};

use crate::cells::{place_at, place_slice};
use crate::indexes::{edge_indexes, first_row, kept_indexes, vertex_indexes};
use crate::plain::{edge_tables, edge_values, vertex_tables, vertex_values};
use crate::sharing::{derived_parts, kept_slots, share_indexes, share_parts};
use crate::{Built, Derived, EdgeAt, VertexAt};
use column_types::{Cell, Column, List, NoMemory, Shared, Steps};
use csr_rows::Rows;
use graph_columns::{GraphParts, TableIndex, all_parts, key_slice};
use graph_model::{EdgeRow, Graph, VertexRow};
use graph_schema::Schema;
use graph_slots::{Layout, Part, SlotName};
use std::alloc::Global;
use std::marker::Model;
use std::sync::ledger::Ledger;

/// A graph in parts, one for each slot of its schema, that never changes. Seen as the graph.
#[derive(Drop)]
pub struct Snapshot {
    layout: Shared<Layout>,
    parts: List<Part>,
    vertices: List<Shared<TableIndex>>,
    edges: List<Shared<TableIndex>>,
}

impl Model for Snapshot {
    ghost use Rattle.graph_model.specs.Graph.{GraphData};
    ghost use Rattle.graph_snap.specs.Seen.{graph_of, IsSnapshot};

    ghost Value = { GraphData };

    ghost view = { λ s. graph_of s.layout s.parts };

    ghost invariant = { λ s. IsSnapshot s.layout s.parts s.vertices s.edges };
}

impl Snapshot {
    /// The snapshot of a graph, which is copied first. It counts a step for each property cell, for each vertex its key, and
    /// for each edge its key, its two places and its two rows; where memory runs out, no more than these.
    pub fn build<L: Ledger>(
        alloc: Global,
        graph: &Graph,
        steps: &mut Steps<L>,
    ) -> Result<Snapshot, NoMemory>
        ensures ok { IfOk result (λ snapshot. snapshot ≡ graph.now) }
        ensures counted { OnOk result (steps.new ≡ steps.old + (cell_total graph.now + vertex_total graph.now + 5 * edge_total graph.now)) }
        ensures least { steps.old ≤ steps.new }
        ensures most { steps.new ≤ steps.old + (cell_total graph.now + vertex_total graph.now + 5 * edge_total graph.now) }
    {
        let copied = graph.copy(alloc)?;
        Snapshot::of_graph(alloc, copied, steps)
    }

    /// The snapshot of a graph that is not needed any more: its columns and the indexes of its keys are moved, no key is hashed,
    /// and nothing is copied but what rows need. It counts as [`Snapshot::build`] does.
    pub fn of_graph<L: Ledger>(
        alloc: Global,
        graph: Graph,
        steps: &mut Steps<L>,
    ) -> Result<Snapshot, NoMemory>
        ensures ok { IfOk result (λ snapshot. snapshot ≡ graph) }
        ensures counted { OnOk result (steps.new ≡ steps.old + (cell_total graph + vertex_total graph + 5 * edge_total graph)) }
        ensures least { steps.old ≤ steps.new }
        ensures most { steps.new ≤ steps.old + (cell_total graph + vertex_total graph + 5 * edge_total graph) }
    {
        graph.sound();
        let GraphParts {
            schema,
            parts,
            vertices,
            edges,
        } = all_parts(alloc, graph, steps)?;
        let layout = Layout::new(alloc, schema)?;
        Snapshot::of_parts(alloc, layout, parts, vertices, edges)
    }

    /// The snapshot of parts in slot order, which are those of a graph of the schema. No part is copied, and each key is hashed
    /// once.
    pub fn assemble(alloc: Global, schema: Schema, parts: List<Part>) -> Result<Snapshot, NoMemory>
        requires { Stands (graph_of schema parts) parts }
        ensures { IfOk result (λ snapshot. snapshot ≡ graph_of schema parts) }
    {
        Snapshot::over(alloc, schema, parts, &[])
    }

    /// A snapshot that is made from another one: for each slot it keeps a part of the base, or has a new one. These are the
    /// parts of a graph of the schema. No part is copied, and no key of a kept key slot is hashed again. It takes no steps,
    /// since it makes no part.
    pub fn derive(
        alloc: Global,
        base: &Snapshot,
        schema: Schema,
        derived: List<Derived>,
        skipped: u64,
    ) -> Result<Built, NoMemory>
        requires known { All (IsKnown base.now) derived }
        requires stands { Stands (graph_of schema (parts_of base.now derived)) (parts_of base.now derived) }
        ensures shot { IfOk result (λ built. built.shot ≡ graph_of schema (parts_of base.now derived)) }
        ensures kept { IfOk result (λ built. built.kept ≡ map kept_of derived) }
        ensures skipped { IfOk result (λ built. built.skipped ≡ skipped) }
        ensures shares { IfOk result (IsBuiltOn base.now) }
    {
        let kept = kept_slots(alloc, derived.as_slice())?;
        let known = kept_indexes(alloc, base, derived.as_slice())?;
        let parts = derived_parts(alloc, base, derived.as_slice())?;
        let shot = Snapshot::over(alloc, schema, parts, known.as_slice())?;
        Ok(Built {
            shot,
            kept,
            skipped,
        })
    }

    /// The snapshot of parts, with the indexes that are known for some of its slots.
    fn over(
        alloc: Global,
        schema: Schema,
        parts: List<Part>,
        known: &[Option<Shared<TableIndex>>],
    ) -> Result<Snapshot, NoMemory>
        requires stands { Stands (graph_of schema parts) parts }
        requires known { AreIndexes parts known.now }
        ensures { IfOk result (λ snapshot. snapshot ≡ graph_of schema parts) }
    {
        let layout = Layout::new(alloc, schema)?;
        let vertices = vertex_indexes(alloc, &layout, parts.as_slice(), known)?;
        let edges = edge_indexes(alloc, &layout, parts.as_slice(), known)?;
        Snapshot::of_parts(alloc, layout, parts, vertices, edges)
    }

    /// The snapshot of parts with the indexes of their keys.
    fn of_parts(
        alloc: Global,
        layout: Layout,
        parts: List<Part>,
        vertices: List<Shared<TableIndex>>,
        edges: List<Shared<TableIndex>>,
    ) -> Result<Snapshot, NoMemory>
        requires { IsSnapshot layout parts vertices edges }
        ensures { IfOk result (λ snapshot. snapshot ≡ graph_of layout parts) }
    {
        Ok(Snapshot {
            layout: Shared::new(alloc, layout)?,
            parts,
            vertices,
            edges,
        })
    }

    /// An equal snapshot of the same parts. None of them is copied.
    pub fn share(&self, alloc: Global) -> Result<Snapshot, NoMemory>
        ensures { IfOk result (λ snapshot. snapshot ≡ self.now) }
    {
        Ok(Snapshot {
            layout: self.layout.share()?,
            parts: share_parts(alloc, self.parts.as_slice())?,
            vertices: share_indexes(alloc, self.vertices.as_slice())?,
            edges: share_indexes(alloc, self.edges.as_slice())?,
        })
    }

    /// One more holder of the index of the keys that a slot holds, where they are those of a table.
    pub(crate) fn shared_index(&self, slot: u32) -> Result<Option<Shared<TableIndex>>, NoMemory>
        requires { slot < length (slots self.now.schema) }
        ensures { IfOk result (λ index. (keys : Items ℤ) → index ≡ Some keys → slice_get (graph_parts self.now) slot ≡ Some (longs keys)) }
    {
        self.sound();
        match self.slot_name(slot) {
            SlotName::VertexKey(table) => {
                Ok(Some(self.vertices.as_slice()[table as usize].share()?))
            }
            SlotName::EdgeKey(table) => Ok(Some(self.edges.as_slice()[table as usize].share()?)),
            _ => Ok(None),
        }
    }

    /// The graph as lists of rows.
    pub fn to_graph(&self, alloc: Global) -> Result<Graph, NoMemory>
        ensures { IfOk result (λ graph. graph ≡ self.now) }
    {
        self.sound();
        let vertices = vertex_tables(alloc, self)?;
        let edges = edge_tables(alloc, self)?;
        Graph::from_tables(alloc, self.schema().clone()?, vertices, edges)
    }

    /// Tells a proof what every snapshot keeps.
    pub fn sound(&self)
        ensures { IsGraph self.now }
    {
        let _ = &self.parts;
    }

    /// The schema.
    pub fn schema(&self) -> &Schema
        ensures { result.now ≡ self.now.schema }
    {
        self.layout.get().schema()
    }

    /// How many slots the schema has.
    pub fn slot_count(&self) -> u32
        ensures value { result ≡ length (slots self.now.schema) }
        ensures few { result ≤ 2208 }
    {
        self.layout.get().len()
    }

    /// The name of a slot.
    pub fn slot_name(&self, slot: u32) -> SlotName
        requires { slot < length (slots self.now.schema) }
        ensures { slice_get (slots self.now.schema) slot ≡ Some result }
    {
        self.layout.get().name(slot)
    }

    /// What a slot holds.
    pub fn part(&self, slot: u32) -> &Part
        requires { slot < length (slots self.now.schema) }
        ensures { slice_get (map (slot_value self.now) (slots self.now.schema)) slot ≡ Some result.now }
    {
        &self.parts.as_slice()[slot as usize]
    }

    /// The number of the slot of a name.
    pub fn number(&self, name: SlotName) -> u32
        requires { HasSlot self.now.schema name }
        ensures { result ≡ slot_number self.now.schema name }
    {
        self.layout.get().number(name)
    }

    /// What the slot of a name holds.
    pub fn part_of(&self, name: SlotName) -> &Part
        requires { HasSlot self.now.schema name }
        ensures { result.now ≡ slot_value self.now name }
    {
        self.part(self.number(name))
    }

    /// The column of a slot. A caller that reads many of its cells asks for it once.
    pub fn column(&self, name: SlotName) -> &Column
        requires known { HasSlot self.now.schema name }
        requires column { is_column name ≡ true }
        ensures { slot_value self.now name ≡ CellsOf result.now }
    {
        match self.part_of(name) {
            Part::Cells(column) => column.get(),
            Part::Rows(_) => unreachable!(),
        }
    }

    /// The rows of a slot that holds rows.
    pub fn rows(&self, name: SlotName) -> &Rows
        requires known { HasSlot self.now.schema name }
        requires rows { is_column name ≡ false }
        ensures { slot_value self.now name ≡ RowsOf result.now }
    {
        match self.part_of(name) {
            Part::Rows(rows) => rows.get(),
            Part::Cells(_) => unreachable!(),
        }
    }

    /// The row of a vertex in a slot that holds rows.
    fn row_of(&self, name: SlotName, place: u32) -> &[u32]
        requires known { HasSlot self.now.schema name }
        requires rows { is_column name ≡ false }
        ensures { result.now ≡ places_of (ends_of self.now name) place }
    {
        self.rows(name).row(place)
    }

    /// How many vertices a table has.
    pub fn vertex_count(&self, table: u32) -> u32
        requires { table < length self.now.schema.vertices }
        ensures { result ≡ length (rows_at self.now.vertices table) }
    {
        self.column(SlotName::VertexKey(table)).len()
    }

    /// How many edges a table has.
    pub fn edge_count(&self, table: u32) -> u32
        requires { table < length self.now.schema.edges }
        ensures { result ≡ length (rows_at self.now.edges table) }
    {
        self.column(SlotName::EdgeKey(table)).len()
    }

    /// The keys of a vertex table, as they lie in memory.
    pub fn vertex_keys(&self, table: u32) -> &[i64]
        requires { table < length self.now.schema.vertices }
        ensures { result.now ≡ vertex_keys_at self.now table }
    {
        key_slice(self.column(SlotName::VertexKey(table)))
    }

    /// The keys of an edge table, as they lie in memory.
    pub fn edge_keys(&self, table: u32) -> &[i64]
        requires { table < length self.now.schema.edges }
        ensures { result.now ≡ edge_keys_at self.now table }
    {
        key_slice(self.column(SlotName::EdgeKey(table)))
    }

    /// For each edge of a table the place where it starts, as they lie in memory.
    pub fn source_places(&self, table: u32) -> &[i32]
        requires { table < length self.now.schema.edges }
        ensures { result.now ≡ map pos (source_places self.now table) }
    {
        place_slice(self.column(SlotName::Source(table)))
    }

    /// For each edge of a table the place where it ends, as they lie in memory.
    pub fn destination_places(&self, table: u32) -> &[i32]
        requires { table < length self.now.schema.edges }
        ensures { result.now ≡ map pos (destination_places self.now table) }
    {
        place_slice(self.column(SlotName::Destination(table)))
    }

    /// The key of a vertex.
    pub fn vertex_key(&self, at: VertexAt) -> i64
        requires { HasVertex self.now at }
        ensures { slice_get (vertex_keys_at self.now at.table) at.place ≡ Some result }
    {
        self.sound();
        self.vertex_keys(at.table)[at.place as usize]
    }

    /// The key of an edge.
    pub fn edge_key(&self, at: EdgeAt) -> i64
        requires { HasEdge self.now at }
        ensures { slice_get (edge_keys_at self.now at.table) at.place ≡ Some result }
    {
        self.sound();
        self.edge_keys(at.table)[at.place as usize]
    }

    /// The value of a property of a vertex.
    pub fn vertex_value(&self, at: VertexAt, prop: u32) -> Cell<'_>
        requires vertex { HasVertex self.now at }
        requires prop { prop < length (vertex_props_at self.now.schema at.table) }
        ensures { slice_get (vertex_prop_values self.now at.table prop) at.place ≡ Some (cell_value result) }
    {
        self.column(SlotName::VertexProp(at.table, prop))
            .get(at.place)
    }

    /// The value of a property of an edge.
    pub fn edge_value(&self, at: EdgeAt, prop: u32) -> Cell<'_>
        requires edge { HasEdge self.now at }
        requires prop { prop < length (edge_props_at self.now.schema at.table) }
        ensures { slice_get (edge_prop_values self.now at.table prop) at.place ≡ Some (cell_value result) }
    {
        self.column(SlotName::EdgeProp(at.table, prop))
            .get(at.place)
    }

    /// A copy of a vertex, with its values.
    pub fn vertex_row(&self, alloc: Global, at: VertexAt) -> Result<VertexRow, NoMemory>
        requires { HasVertex self.now at }
        ensures { IfOk result (λ row. slice_get (rows_at self.now.vertices at.table) at.place ≡ Some row) }
    {
        let values = vertex_values(alloc, self, at)?;
        Ok(VertexRow {
            key: self.vertex_key(at),
            values,
        })
    }

    /// A copy of an edge, with its values.
    pub fn edge_row(&self, alloc: Global, at: EdgeAt) -> Result<EdgeRow, NoMemory>
        requires { HasEdge self.now at }
        ensures { IfOk result (λ row. slice_get (rows_at self.now.edges at.table) at.place ≡ Some row) }
    {
        let values = edge_values(alloc, self, at)?;
        let (source, destination) = self.ends(at);
        Ok(EdgeRow {
            key: self.edge_key(at),
            source: self.vertex_key(source),
            destination: self.vertex_key(destination),
            values,
        })
    }

    /// The vertices where an edge starts and ends.
    pub fn ends(&self, at: EdgeAt) -> (VertexAt, VertexAt)
        requires { HasEdge self.now at }
        ensures source { StartsAt self.now at result.0 }
        ensures destination { EndsAt self.now at result.1 }
    {
        self.sound();
        let source = VertexAt {
            table: self.source_table(at.table),
            place: place_at(self.column(SlotName::Source(at.table)), at.place),
        };
        let destination = VertexAt {
            table: self.destination_table(at.table),
            place: place_at(self.column(SlotName::Destination(at.table)), at.place),
        };
        (source, destination)
    }

    /// The vertex table where the edges of a table start.
    fn source_table(&self, edges: u32) -> u32
        requires { edges < length self.now.schema.edges }
        ensures { result ≡ source_at self.now.schema edges }
    {
        self.schema().edges()[edges as usize].source
    }

    /// The vertex table where the edges of a table end.
    fn destination_table(&self, edges: u32) -> u32
        requires { edges < length self.now.schema.edges }
        ensures { result ≡ destination_at self.now.schema edges }
    {
        self.schema().edges()[edges as usize].destination
    }

    /// The places of the edges of a table that leave a vertex, in rising order. There are none where the edges of that table
    /// start in another vertex table, and none past the last vertex.
    pub fn out_row(&self, at: VertexAt, edges: u32) -> &[u32]
        requires { edges < length self.now.schema.edges }
        ensures { result.now ≡ out_places self.now at.table at.place edges }
    {
        if self.source_table(edges) != at.table {
            return &[];
        }
        self.row_of(SlotName::Out(edges), at.place)
    }

    /// The places of the edges of a table that enter a vertex, in rising order. There are none where the edges of that table
    /// end in another vertex table, and none past the last vertex.
    pub fn in_row(&self, at: VertexAt, edges: u32) -> &[u32]
        requires { edges < length self.now.schema.edges }
        ensures { result.now ≡ in_places self.now at.table at.place edges }
    {
        if self.destination_table(edges) != at.table {
            return &[];
        }
        self.row_of(SlotName::Into(edges), at.place)
    }

    /// Where the vertex of a key stands: of those in several tables the one of least position. None exactly where no vertex
    /// has the key.
    pub fn vertex_of_key(&self, key: i64) -> Option<VertexAt>
        ensures found { IfSome result (λ at. slice_get (vertex_keys_at self.now at.table) at.place ≡ Some key) }
        ensures least { IfSome result (λ at. IsLeast (vertex_keys_at self.now) key at.table at.place) }
        ensures within { IfSome result (λ at. HasVertex self.now at) }
        ensures missing { IsNone result ↔ (has_vertex key self.now.vertices ≡ false) }
    {
        self.sound();
        let (table, place) = first_row(self.vertices.as_slice(), key)?;
        Some(VertexAt { table, place })
    }

    /// Where the edge of a key stands: of those in several tables the one of least position. None exactly where no edge has
    /// the key.
    pub fn edge_of_key(&self, key: i64) -> Option<EdgeAt>
        ensures found { IfSome result (λ at. slice_get (edge_keys_at self.now at.table) at.place ≡ Some key) }
        ensures least { IfSome result (λ at. IsLeast (edge_keys_at self.now) key at.table at.place) }
        ensures within { IfSome result (λ at. HasEdge self.now at) }
        ensures missing { IsNone result ↔ (has_edge key self.now.edges ≡ false) }
    {
        self.sound();
        let (table, place) = first_row(self.edges.as_slice(), key)?;
        Some(EdgeAt { table, place })
    }

    /// Where the vertex of a key stands in a table. None exactly where no vertex of the table has the key.
    pub fn vertex_in(&self, table: u32, key: i64) -> Option<VertexAt>
        requires { table < length self.now.schema.vertices }
        ensures table { IfSome result (λ at. at.table ≡ table) }
        ensures found { IfSome result (λ at. slice_get (vertex_keys_at self.now table) at.place ≡ Some key) }
        ensures within { IfSome result (λ at. HasVertex self.now at) }
        ensures missing { IsNone result ↔ (has_vertex_in key (rows_at self.now.vertices table) ≡ false) }
    {
        self.sound();
        let place = self.vertices.as_slice()[table as usize].get().find(key)?;
        Some(VertexAt { table, place })
    }

    /// Where the edge of a key stands in a table. None exactly where no edge of the table has the key.
    pub fn edge_in(&self, table: u32, key: i64) -> Option<EdgeAt>
        requires { table < length self.now.schema.edges }
        ensures table { IfSome result (λ at. at.table ≡ table) }
        ensures found { IfSome result (λ at. slice_get (edge_keys_at self.now table) at.place ≡ Some key) }
        ensures within { IfSome result (λ at. HasEdge self.now at) }
        ensures missing { IsNone result ↔ (has_edge_in key (rows_at self.now.edges table) ≡ false) }
    {
        self.sound();
        let place = self.edges.as_slice()[table as usize].get().find(key)?;
        Some(EdgeAt { table, place })
    }
}
