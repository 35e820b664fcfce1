//! Whether a change fits what an overlay tells.
ghost use Rattle.std.specs.Prelude.{◌≡◌, ◌+◌, ◌<◌, ◌≤◌, ◌||◌, not, nat_lt, length, slice_get, if◌then◌else◌, Some, None};
ghost use Rattle.std.specs.List.{list_any, range_with_len};
ghost use Rattle.graph_model.specs.Graph.{kinds_fit, most_vertices, most_edges, most_cells, source_at, destination_at};
ghost use Rattle.graph_model.specs.declared.change.Change.TheVariants as change;
ghost use Rattle.graph_model.specs.declared.change.Why.TheVariants.{KeyTaken, EndMissing, Limit};
ghost use Rattle.changeset.specs.Facts.{is_there, taken_by, misfit_of};
ghost use Rattle.changeset.specs.Overlay.{told, AreFew};

use crate::base::{destination_table, source_table};
use crate::overlay::Overlay;
use column_types::{List, Value};
use graph_model::{Change, Why};
use graph_schema::{Keys, Prop};
use graph_snap::Snapshot;

/// The most vertices of a graph.
const MOST_VERTICES: u32 = 1_048_576;

/// The most edges of a graph.
const MOST_EDGES: u32 = 4_194_304;

/// The most property cells of a graph, over vertices and edges.
const MOST_CELLS: u32 = 16_777_216;

/// Whether each value is NULL or of its property's kind.
fn values_have_kinds(props: &List<Prop>, values: &List<Value>) -> bool
    ensures { result ≡ kinds_fit props.now values.now }
{
    props
        .as_slice()
        .iter()
        .zip(values.as_slice().iter())
        .all(|(prop, value)| prop.kind.fits(value.cell()))
}

impl Overlay {
    // ---- keys and limits

    fn some_table_has_vertex(&self, base: &Snapshot, key: i64) -> bool
        ensures { result ≡ list_any (λ u. ((told base.now self.now).vertex u key).there) (range_with_len 0 (length base.now.schema.vertices)) }
    {
        base.sound();
        for table in 0..base.schema().vertices().len() as u32 {
            if self.has_vertex(base, table, key) {
                return true;
            }
        }
        false
    }

    fn some_table_has_edge(&self, base: &Snapshot, key: i64) -> bool
        ensures { result ≡ list_any (λ u. is_there ((told base.now self.now).edge u key)) (range_with_len 0 (length base.now.schema.edges)) }
    {
        base.sound();
        for table in 0..base.schema().edges().len() as u32 {
            if self.has_edge(base, table, key) {
                return true;
            }
        }
        false
    }

    /// Whether no new vertex of a table can have the key. Under `Whole` it is looked for in each table, of which there are at
    /// most 32.
    fn vertex_is_taken(&self, base: &Snapshot, table: u32, key: i64) -> bool
        requires { table < length base.now.schema.vertices }
        ensures { result ≡ taken_by base.now.schema.keys (length base.now.schema.vertices) (λ u. ((told base.now self.now).vertex u key).there) table }
    {
        match base.schema().keys() {
            Keys::Whole => self.some_table_has_vertex(base, key),
            Keys::PerTable => self.has_vertex(base, table, key),
        }
    }

    fn edge_is_taken(&self, base: &Snapshot, table: u32, key: i64) -> bool
        requires { table < length base.now.schema.edges }
        ensures { result ≡ taken_by base.now.schema.keys (length base.now.schema.edges) (λ u. is_there ((told base.now self.now).edge u key)) table }
    {
        match base.schema().keys() {
            Keys::Whole => self.some_table_has_edge(base, key),
            Keys::PerTable => self.has_edge(base, table, key),
        }
    }

    /// Whether so many more property cells are too many.
    fn cells_pass(&self, more: usize) -> bool
        requires { self.now.cell_total ≤ 16777216 }
        ensures { result ≡ nat_lt most_cells (self.now.cell_total + more) }
    {
        ((MOST_CELLS - self.cell_total) as usize) < more
    }

    /// Whether one more vertex with so many values is too much.
    fn vertex_passes(&self, more: usize) -> bool
        requires { self.now.cell_total ≤ 16777216 }
        ensures { result ≡ (nat_lt most_vertices (self.now.vertex_total + 1) || nat_lt most_cells (self.now.cell_total + more)) }
    {
        MOST_VERTICES <= self.vertex_total || self.cells_pass(more)
    }

    /// Whether one more edge with so many values is too much.
    fn edge_passes(&self, more: usize) -> bool
        requires { self.now.cell_total ≤ 16777216 }
        ensures { result ≡ (nat_lt most_edges (self.now.edge_total + 1) || nat_lt most_cells (self.now.cell_total + more)) }
    {
        MOST_EDGES <= self.edge_total || self.cells_pass(more)
    }

    // ---- vertices

    fn insert_vertex_misfit(
        &self,
        base: &Snapshot,
        table: u32,
        key: i64,
        values: &List<Value>,
    ) -> Option<Why>
        requires { AreFew (told base.now self.now) }
        ensures { result ≡ misfit_of base.now.schema (told base.now self.now) (change.InsertVertex table key values.now) }
    {
        let Some(shape) = base.schema().vertices().get(table as usize) else {
            return Some(Why::Table);
        };
        if values.len() != shape.props.len() {
            return Some(Why::Count);
        }
        if !values_have_kinds(&shape.props, values) {
            return Some(Why::Kind);
        }
        if self.vertex_is_taken(base, table, key) {
            return Some(Why::KeyTaken);
        }
        if self.vertex_passes(values.len()) {
            return Some(Why::Limit);
        }
        None
    }

    fn delete_vertex_misfit(&self, base: &Snapshot, table: u32, key: i64) -> Option<Why>
        ensures { result ≡ misfit_of base.now.schema (told base.now self.now) (change.DeleteVertex table key) }
    {
        if base.schema().vertices().get(table as usize).is_none() {
            return Some(Why::Table);
        }
        if !self.has_vertex(base, table, key) {
            return Some(Why::KeyMissing);
        }
        if 0 < self.ends(base, table, key) {
            return Some(Why::HasEdges);
        }
        None
    }

    fn set_vertex_misfit(
        &self,
        base: &Snapshot,
        table: u32,
        key: i64,
        prop: u32,
        value: &Value,
    ) -> Option<Why>
        ensures { result ≡ misfit_of base.now.schema (told base.now self.now) (change.SetVertex table key prop value.now) }
    {
        let Some(shape) = base.schema().vertices().get(table as usize) else {
            return Some(Why::Table);
        };
        let Some(place) = shape.props.get(prop as usize) else {
            return Some(Why::Prop);
        };
        if !place.kind.fits(value.cell()) {
            return Some(Why::Kind);
        }
        if !self.has_vertex(base, table, key) {
            return Some(Why::KeyMissing);
        }
        None
    }

    // ---- edges

    fn insert_edge_misfit(
        &self,
        base: &Snapshot,
        table: u32,
        key: i64,
        source: i64,
        destination: i64,
        values: &List<Value>,
    ) -> Option<Why>
        requires { AreFew (told base.now self.now) }
        ensures { result ≡ misfit_of base.now.schema (told base.now self.now) (change.InsertEdge table key source destination values.now) }
    {
        let Some(shape) = base.schema().edges().get(table as usize) else {
            return Some(Why::Table);
        };
        if values.len() != shape.props.len() {
            return Some(Why::Count);
        }
        if !values_have_kinds(&shape.props, values) {
            return Some(Why::Kind);
        }
        self.new_edge_misfit(base, table, key, source, destination, values.len())
    }

    /// The first of the causes that lie in the key, the ends and the limits.
    fn new_edge_misfit(
        &self,
        base: &Snapshot,
        table: u32,
        key: i64,
        source: i64,
        destination: i64,
        width: usize,
    ) -> Option<Why>
        requires table { table < length base.now.schema.edges }
        requires few { AreFew (told base.now self.now) }
        ensures { result ≡ (if taken_by base.now.schema.keys (length base.now.schema.edges) (λ u. is_there ((told base.now self.now).edge u key)) table then Some KeyTaken
            else if not ((told base.now self.now).vertex (source_at base.now.schema table) source).there || not ((told base.now self.now).vertex (destination_at base.now.schema table) destination).there then Some EndMissing
            else if nat_lt most_edges ((told base.now self.now).edges + 1) || nat_lt most_cells ((told base.now self.now).cells + width) then Some Limit
            else None) }
    {
        if self.edge_is_taken(base, table, key) {
            return Some(Why::KeyTaken);
        }
        if self.ends_missing(base, table, source, destination) {
            return Some(Why::EndMissing);
        }
        if self.edge_passes(width) {
            return Some(Why::Limit);
        }
        None
    }

    /// Whether an end is no vertex of its end table.
    fn ends_missing(&self, base: &Snapshot, table: u32, source: i64, destination: i64) -> bool
        requires { table < length base.now.schema.edges }
        ensures { result ≡ (not ((told base.now self.now).vertex (source_at base.now.schema table) source).there || not ((told base.now self.now).vertex (destination_at base.now.schema table) destination).there) }
    {
        !self.has_vertex(base, source_table(base, table), source)
            || !self.has_vertex(base, destination_table(base, table), destination)
    }

    fn delete_edge_misfit(&self, base: &Snapshot, table: u32, key: i64) -> Option<Why>
        ensures { result ≡ misfit_of base.now.schema (told base.now self.now) (change.DeleteEdge table key) }
    {
        if base.schema().edges().get(table as usize).is_none() {
            return Some(Why::Table);
        }
        if !self.has_edge(base, table, key) {
            return Some(Why::KeyMissing);
        }
        None
    }

    fn set_edge_misfit(
        &self,
        base: &Snapshot,
        table: u32,
        key: i64,
        prop: u32,
        value: &Value,
    ) -> Option<Why>
        ensures { result ≡ misfit_of base.now.schema (told base.now self.now) (change.SetEdge table key prop value.now) }
    {
        let Some(shape) = base.schema().edges().get(table as usize) else {
            return Some(Why::Table);
        };
        let Some(place) = shape.props.get(prop as usize) else {
            return Some(Why::Prop);
        };
        if !place.kind.fits(value.cell()) {
            return Some(Why::Kind);
        }
        if !self.has_edge(base, table, key) {
            return Some(Why::KeyMissing);
        }
        None
    }

    // ---- all changes

    /// The first cause, in the order of `Why`, for which a change does not fit now.
    pub(crate) fn misfit(&self, base: &Snapshot, change: &Change) -> Option<Why>
        requires { AreFew (told base.now self.now) }
        ensures { result ≡ misfit_of base.now.schema (told base.now self.now) change.now }
    {
        match change {
            Change::InsertVertex { table, key, values } => {
                self.insert_vertex_misfit(base, *table, *key, values)
            }
            Change::DeleteVertex { table, key } => self.delete_vertex_misfit(base, *table, *key),
            Change::InsertEdge {
                table,
                key,
                source,
                destination,
                values,
            } => self.insert_edge_misfit(base, *table, *key, *source, *destination, values),
            Change::DeleteEdge { table, key } => self.delete_edge_misfit(base, *table, *key),
            Change::SetVertex {
                table,
                key,
                prop,
                value,
            } => self.set_vertex_misfit(base, *table, *key, *prop, value),
            Change::SetEdge {
                table,
                key,
                prop,
                value,
            } => self.set_edge_misfit(base, *table, *key, *prop, value),
        }
    }
}
