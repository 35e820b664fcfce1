//! Marks of the slots that changes touch.
ghost use Rattle.std.specs.Prelude.{◌≡◌, ◌<◌, ◌||◌, true, false, [], IfOk, length, map, replicate, slice_set, slice_index_or};
ghost use Rattle.graph_model.specs.Graph.{source_at, destination_at};
ghost use Rattle.graph_slots.specs.declared.slot.SlotName.{SlotName as AName};
ghost use Rattle.graph_slots.specs.Touched.{touches};
ghost use Rattle.graph_slots.specs.Numbers.{HasSlot};
ghost use Rattle.delta_fold.specs.Marked.{HaveRoom, HasPlace, is_marked, mark_at as at, mark_in as within};

use column_types::{List, NoMemory};
use graph_model::Change;
use graph_schema::{EdgeTable, Schema, VertexTable};
use graph_slots::SlotName;
use std::alloc::Global;

/// Marks of slots. They are kept by table and property, since a change marks all slots of a table, or one property.
#[derive(Drop)]
pub(crate) struct Marks {
    /// For each vertex table whether all of its slots are marked.
    pub vertex_rows: List<bool>,
    /// For each vertex table and each of its properties whether the property's slot is marked.
    pub vertex_props: List<List<bool>>,
    /// For each vertex table whether a vertex was deleted from it, so that others moved to other places. This marks the slots that
    /// tell which edges start or end there, and at which place.
    pub places: List<bool>,
    /// For each edge table whether all of its slots are marked.
    pub edge_rows: List<bool>,
    /// For each edge table and each of its properties whether the property's slot is marked.
    pub edge_props: List<List<bool>>,
}

/// A list of so many marks, none of which is set.
fn no_marks(alloc: Global, count: usize) -> Result<List<bool>, NoMemory>
    ensures { IfOk result (λ marks. marks ≡ replicate count false) }
{
    let mut marks = List::new(alloc);
    for _i in 0..count {
        marks.push(false)?;
    }
    Ok(marks)
}

/// For each vertex table a list of marks for its properties, none of which is set.
fn no_vertex_prop_marks(alloc: Global, tables: &[VertexTable]) -> Result<List<List<bool>>, NoMemory>
    ensures { IfOk result (λ marks. marks ≡ map (λ x. replicate (length x.props) false) tables.now) }
{
    let mut marks = List::new(alloc);
    for table in tables {
        marks.push(no_marks(alloc, table.props.len())?)?;
    }
    Ok(marks)
}

/// For each edge table a list of marks for its properties, none of which is set.
fn no_edge_prop_marks(alloc: Global, tables: &[EdgeTable]) -> Result<List<List<bool>>, NoMemory>
    ensures { IfOk result (λ marks. marks ≡ map (λ x. replicate (length x.props) false) tables.now) }
{
    let mut marks = List::new(alloc);
    for table in tables {
        marks.push(no_marks(alloc, table.props.len())?)?;
    }
    Ok(marks)
}

/// Marks a property of a table.
fn mark_prop(marks: &mut List<List<bool>>, table: u32, prop: u32)
    requires table { table < length marks.old }
    requires prop { prop < length (slice_index_or marks.old table []) }
    ensures { marks.new ≡ slice_set marks.old table (slice_set (slice_index_or marks.old table []) prop true) }
{
    marks.as_mut_slice()[table as usize].set(prop as usize, true);
}

impl Marks {
    /// Marks for a schema, none of which is set.
    pub(crate) fn new(alloc: Global, schema: &Schema) -> Result<Marks, NoMemory>
        ensures room { IfOk result (λ m. HaveRoom schema.now m) }
        ensures none { IfOk result (λ m. (x : AName) → is_marked schema.now m x ≡ false) }
    {
        let vertices = schema.vertices();
        let edges = schema.edges();
        Ok(Marks {
            vertex_rows: no_marks(alloc, vertices.len())?,
            vertex_props: no_vertex_prop_marks(alloc, vertices)?,
            places: no_marks(alloc, vertices.len())?,
            edge_rows: no_marks(alloc, edges.len())?,
            edge_props: no_edge_prop_marks(alloc, edges)?,
        })
    }

    /// Marks the slots that a change touches. It names a table and a property that are there, as each change that fits does.
    pub(crate) fn mark(&mut self, schema: &Schema, change: &Change)
        requires room { HaveRoom schema.now self.old }
        requires place { HasPlace schema.now change.now }
        ensures room { HaveRoom schema.now self.new }
        ensures marks { (x : AName) → HasSlot schema.now x → is_marked schema.now self.new x ≡ (is_marked schema.now self.old x || touches schema.now change.now x) }
    {
        let _ = schema;
        match change {
            Change::InsertVertex { table, .. } => self.vertex_rows.set(*table as usize, true),
            Change::DeleteVertex { table, .. } => {
                self.vertex_rows.set(*table as usize, true);
                self.places.set(*table as usize, true);
            }
            Change::InsertEdge { table, .. } | Change::DeleteEdge { table, .. } => {
                self.edge_rows.set(*table as usize, true)
            }
            Change::SetVertex { table, prop, .. } => {
                mark_prop(&mut self.vertex_props, *table, *prop)
            }
            Change::SetEdge { table, prop, .. } => mark_prop(&mut self.edge_props, *table, *prop),
        }
    }

    /// Whether a slot is marked.
    pub(crate) fn has(&self, schema: &Schema, name: SlotName) -> bool
        ensures { result ≡ is_marked schema.now self.now name }
    {
        match name {
            SlotName::VertexKey(t) => mark_at(&self.vertex_rows, t),
            SlotName::VertexProp(t, p) => {
                mark_at(&self.vertex_rows, t) || mark_in(&self.vertex_props, t, p)
            }
            SlotName::EdgeKey(t) => mark_at(&self.edge_rows, t),
            SlotName::Source(t) | SlotName::Out(t) => {
                mark_at(&self.edge_rows, t) || mark_at(&self.places, source_table(schema, t))
            }
            SlotName::Destination(t) | SlotName::Into(t) => {
                mark_at(&self.edge_rows, t) || mark_at(&self.places, destination_table(schema, t))
            }
            SlotName::EdgeProp(t, p) => {
                mark_at(&self.edge_rows, t) || mark_in(&self.edge_props, t, p)
            }
        }
    }
}

/// The mark at a place, and false where there is no such place.
fn mark_at(marks: &List<bool>, place: u32) -> bool
    ensures { result ≡ at marks.now place }
{
    match marks.as_slice().get(place as usize) {
        Some(mark) => *mark,
        None => false,
    }
}

/// The mark at a place in the list of a table, and false where there is no such table or place.
fn mark_in(tables: &List<List<bool>>, table: u32, place: u32) -> bool
    ensures { result ≡ within tables.now table place }
{
    match tables.as_slice().get(table as usize) {
        Some(marks) => mark_at(marks, place),
        None => false,
    }
}

/// The vertex table where the edges of a table start, the first where there is no such table.
fn source_table(schema: &Schema, table: u32) -> u32
    ensures { result ≡ source_at schema.now table }
{
    match schema.edges().get(table as usize) {
        Some(shape) => shape.source,
        None => 0,
    }
}

/// The vertex table where the edges of a table end, the first where there is no such table.
fn destination_table(schema: &Schema, table: u32) -> u32
    ensures { result ≡ destination_at schema.now table }
{
    match schema.edges().get(table as usize) {
        Some(shape) => shape.destination,
        None => 0,
    }
}
