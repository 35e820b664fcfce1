//! Graphs.
ghost use Rattle.std.specs.Prelude.{◌≡◌, ◌+◌, ◌<◌, ◌≤◌, ◌||◌, not, nat_lt, length, slice_get, if◌then◌else◌, Some, None, IsTrue, IfOk, OnOk, OnErr};
ghost use Rattle.std.specs.Option.{option_copied};
ghost use Rattle.graph_model.specs.Keys.{rows_at, is_taken as key_is_taken};
ghost use Rattle.graph_model.specs.Graph.{IsGraph, has_vertex_in, has_edge_in, vertex_key, edge_key, is_end as key_is_end, kinds_fit, vertex_total, edge_total, cell_total, most_vertices, most_edges, most_cells, source_at, destination_at};
ghost use Rattle.graph_model.specs.declared.change.Why.TheVariants.{KeyTaken, EndMissing, Limit};
ghost use Rattle.graph_model.specs.Change.{misfit, changed, Applies};
ghost use Rattle.graph_model.specs.IntoColumns.{AreColumnsOf};

use crate::columns::{GraphColumns, columns_of};
use crate::copies::{copy_edges, copy_vertices};
use crate::counts::{count_ends, count_of, forget_ends, grow_for, no_counts};
use crate::ends::{Ends, destination_of, ends_in_seat, ends_of, no_ends, put_ends_in, source_of};
use crate::from_rows::{copy_edge_tables, copy_vertex_tables, put_edge_tables, put_vertex_tables};
use crate::table::Table;
use crate::tables::{
    count_cells, count_rows, edge_tables, has_key, is_taken, push_row, remove_row, seat_count,
    seat_of, set_value, vertex_tables,
};
use crate::{ApplyFault, Change, EdgeRow, EdgeTable, Prop, Schema, VertexRow, Why};
use column_types::{List, NoMemory, Value, copy_value};
use std::alloc::Global;
use std::marker::Model;

/// The most vertices of a graph.
const MOST_VERTICES: u32 = 1_048_576;

/// The most edges of a graph.
const MOST_EDGES: u32 = 4_194_304;

/// The most property cells of a graph, over vertices and edges.
const MOST_CELLS: u32 = 16_777_216;

/// A schema with the rows of its tables, held in columns, for each edge the seats of its ends, and for each seat of a vertex
/// table how many ends stand there. Seen as the schema and the lists of rows. What every graph keeps is `IsGraph`.
#[derive(Drop)]
pub struct Graph {
    schema: Schema,
    vertices: List<Table>,
    edges: List<Table>,
    ends: List<List<Ends>>,
    counts: List<List<u32>>,
}

impl Model for Graph {
    ghost use Rattle.graph_model.specs.Graph.{GraphData};
    ghost use Rattle.graph_model.specs.Stored.{stored_graph};
    ghost use Rattle.graph_model.specs.Counts.{IsKept};

    ghost Value = { GraphData };

    ghost view = { λ g. stored_graph g.schema g.vertices g.edges g.ends };

    ghost invariant = { λ g. IsKept g.schema g.vertices g.edges g.ends g.counts };
}

/// Whether each value is NULL or of its property's kind.
fn values_have_kinds(props: &List<Prop>, values: &List<Value>) -> bool
    ensures { result ≡ kinds_fit props.now values.now }
{
    props
        .as_slice()
        .iter()
        .zip(values.as_slice().iter())
        .all(|(prop, value)| prop.kind.fits(value.cell()))
}

fn copy_values(alloc: Global, values: &List<Value>) -> Result<List<Value>, NoMemory>
    ensures { IfOk result (λ copy. copy ≡ values.now) }
{
    let mut copy = List::new(alloc);
    for value in values.as_slice() {
        copy.push(copy_value(alloc, value.cell())?)?;
    }
    Ok(copy)
}

impl Graph {
    ghost use Rattle.graph_model.specs.Graph.{empty_graph};

    /// The graph of a schema without rows.
    pub fn empty(alloc: Global, schema: Schema) -> Result<Graph, NoMemory>
        ensures { IfOk result (λ g. g ≡ empty_graph schema) }
    {
        let vertices = vertex_tables(alloc, schema.vertices())?;
        let edges = edge_tables(alloc, schema.edges())?;
        let ends = no_ends(alloc, edges.len())?;
        let counts = no_counts(alloc, vertices.len())?;
        Ok(Graph {
            schema,
            vertices,
            edges,
            ends,
            counts,
        })
    }

    /// The schema.
    pub fn schema(&self) -> &Schema
        ensures { result.now ≡ self.now.schema }
    {
        &self.schema
    }

    /// A copy of the rows of a vertex table in order, none where there is no such table.
    pub fn vertex_rows(&self, alloc: Global, table: u32) -> Result<List<VertexRow>, NoMemory>
        ensures { IfOk result (λ rows. rows ≡ rows_at self.now.vertices table) }
    {
        match self.vertices.get(table as usize) {
            Some(there) => copy_vertices(alloc, there),
            None => Ok(List::new(alloc)),
        }
    }

    /// A copy of the rows of an edge table in order, none where there is no such table.
    pub fn edge_rows(&self, alloc: Global, table: u32) -> Result<List<EdgeRow>, NoMemory>
        ensures { IfOk result (λ rows. rows ≡ rows_at self.now.edges table) }
    {
        let Some(shape) = self.schema.edges().get(table as usize) else {
            return Ok(List::new(alloc));
        };
        let vertices = self.vertices.as_slice();
        copy_edges(
            alloc,
            &self.edges.as_slice()[table as usize],
            self.ends.as_slice()[table as usize].as_slice(),
            &vertices[shape.source as usize],
            &vertices[shape.destination as usize],
        )
    }

    /// How many vertices all tables have.
    pub fn vertex_count(&self) -> u32
        ensures total { result ≡ vertex_total self.now }
        ensures few { result ≤ most_vertices }
    {
        count_rows(self.vertices.as_slice())
    }

    /// How many edges all tables have.
    pub fn edge_count(&self) -> u32
        ensures total { result ≡ edge_total self.now }
        ensures few { result ≤ most_edges }
    {
        count_rows(self.edges.as_slice())
    }

    /// How many values they have.
    fn cell_count(&self) -> u32
        ensures total { result ≡ cell_total self.now }
        ensures few { result ≤ most_cells }
    {
        count_cells(self.vertices.as_slice()) + count_cells(self.edges.as_slice())
    }

    /// Tells a proof what every graph keeps.
    pub fn sound(&self)
        ensures { IsGraph self.now }
    {
        let _ = &self.vertices;
    }

    /// The first cause, in the order of `Why`, for which a change does not fit.
    pub fn misfit(&self, change: &Change) -> Option<Why>
        ensures { result ≡ misfit self.now change.now }
    {
        match change {
            Change::InsertVertex { table, key, values } => {
                self.insert_vertex_misfit(*table, *key, values)
            }
            Change::DeleteVertex { table, key } => self.delete_vertex_misfit(*table, *key),
            Change::InsertEdge {
                table,
                key,
                source,
                destination,
                values,
            } => self.insert_edge_misfit(*table, *key, *source, *destination, values),
            Change::DeleteEdge { table, key } => self.delete_edge_misfit(*table, *key),
            Change::SetVertex {
                table,
                key,
                prop,
                value,
            } => self.set_vertex_misfit(*table, *key, *prop, value),
            Change::SetEdge {
                table,
                key,
                prop,
                value,
            } => self.set_edge_misfit(*table, *key, *prop, value),
        }
    }

    /// Makes a change where it fits. After an error the graph is as before.
    pub fn apply(&mut self, alloc: Global, change: &Change) -> Result<(), ApplyFault>
        ensures { Applies self.old change.now result self.new }
    {
        if let Some(why) = self.misfit(change) {
            return Err(ApplyFault::Misfit(why));
        }
        match change {
            Change::InsertVertex { table, key, values } => {
                self.add_vertex(*table, *key, copy_values(alloc, values)?)?;
            }
            Change::DeleteVertex { table, key } => self.drop_vertex(*table, *key)?,
            Change::InsertEdge {
                table,
                key,
                source,
                destination,
                values,
            } => {
                let values = copy_values(alloc, values)?;
                self.add_edge(*table, *key, *source, *destination, values)?;
            }
            Change::DeleteEdge { table, key } => self.drop_edge(*table, *key)?,
            Change::SetVertex {
                table,
                key,
                prop,
                value,
            } => {
                let value = copy_value(alloc, value.cell())?;
                self.put_vertex_value(*table, *key, *prop, value)?;
            }
            Change::SetEdge {
                table,
                key,
                prop,
                value,
            } => {
                let value = copy_value(alloc, value.cell())?;
                self.put_edge_value(*table, *key, *prop, value)?;
            }
        }
        Ok(())
    }

    /// The graph of a schema with these rows, for each vertex table and for each edge table.
    pub fn from_tables(
        alloc: Global,
        schema: Schema,
        vertices: List<List<VertexRow>>,
        edges: List<List<EdgeRow>>,
    ) -> Result<Graph, NoMemory>
        requires { IsGraph (record { schema = schema; vertices = vertices; edges = edges }) }
        ensures { IfOk result (λ g. g ≡ record { schema = schema; vertices = vertices; edges = edges }) }
    {
        let mut graph = Graph::empty(alloc, schema)?;
        put_vertex_tables(&mut graph, vertices)?;
        put_edge_tables(&mut graph, edges)?;
        Ok(graph)
    }

    /// An equal graph.
    pub fn copy(&self, alloc: Global) -> Result<Graph, NoMemory>
        ensures { IfOk result (λ g. g ≡ self.now) }
    {
        self.sound();
        let schema = self.schema().clone()?;
        let vertices = copy_vertex_tables(alloc, self)?;
        let edges = copy_edge_tables(alloc, self)?;
        Graph::from_tables(alloc, schema, vertices, edges)
    }

    /// The columns of the graph. Nothing is copied where no row was ever taken out.
    pub fn into_columns(self, alloc: Global) -> Result<GraphColumns, NoMemory>
        ensures { IfOk result (AreColumnsOf self) }
    {
        let Graph {
            schema,
            vertices,
            edges,
            ends,
            counts,
        } = self;
        drop(counts);
        columns_of(alloc, schema, vertices, edges, ends)
    }

    /// Whether so many more property cells are too many.
    fn cells_pass(&self, more: usize) -> bool
        ensures { result ≡ nat_lt most_cells (cell_total self.now + more) }
    {
        ((MOST_CELLS - self.cell_count()) as usize) < more
    }

    // ---- keys and seats

    fn vertex_is_taken(&self, table: u32, key: i64) -> bool
        ensures { result ≡ key_is_taken self.now.schema.keys vertex_key key self.now.vertices table }
    {
        is_taken(self.schema.keys(), self.vertices.as_slice(), key, table)
    }

    fn edge_is_taken(&self, table: u32, key: i64) -> bool
        ensures { result ≡ key_is_taken self.now.schema.keys edge_key key self.now.edges table }
    {
        is_taken(self.schema.keys(), self.edges.as_slice(), key, table)
    }

    fn has_vertex(&self, table: u32, key: i64) -> bool
        ensures { result ≡ has_vertex_in key (rows_at self.now.vertices table) }
    {
        has_key(self.vertices.as_slice(), table, key)
    }

    fn has_edge(&self, table: u32, key: i64) -> bool
        ensures { result ≡ has_edge_in key (rows_at self.now.edges table) }
    {
        has_key(self.edges.as_slice(), table, key)
    }

    /// Whether an edge starts or ends at a vertex that is there.
    fn is_end(&self, table: u32, key: i64) -> bool
        requires { IsTrue (has_vertex_in key (rows_at self.now.vertices table)) }
        ensures { result ≡ key_is_end self.now.schema table key self.now.edges }
    {
        match seat_of(self.vertices.as_slice(), table, key) {
            Some(seat) => 0 < count_of(self.counts.as_slice(), table, seat),
            None => false,
        }
    }

    // ---- vertices

    /// Puts a vertex at the end of a table, where it fits.
    pub fn insert_vertex(
        &mut self,
        table: u32,
        key: i64,
        values: List<Value>,
    ) -> Result<(), ApplyFault>
        ensures { Applies self.old (Change.InsertVertex table key values) result self.new }
    {
        if let Some(why) = self.insert_vertex_misfit(table, key, &values) {
            return Err(ApplyFault::Misfit(why));
        }
        self.add_vertex(table, key, values)?;
        Ok(())
    }

    fn insert_vertex_misfit(&self, table: u32, key: i64, values: &List<Value>) -> Option<Why>
        ensures { result ≡ misfit self.now (Change.InsertVertex table key values.now) }
    {
        let Some(shape) = self.schema.vertices().get(table as usize) else {
            return Some(Why::Table);
        };
        if values.len() != shape.props.len() {
            return Some(Why::Count);
        }
        if !values_have_kinds(&shape.props, values) {
            return Some(Why::Kind);
        }
        if self.vertex_is_taken(table, key) {
            return Some(Why::KeyTaken);
        }
        if self.vertex_passes(values.len()) {
            return Some(Why::Limit);
        }
        None
    }

    /// Whether one more vertex with so many values is too much.
    fn vertex_passes(&self, more: usize) -> bool
        ensures { result ≡ (nat_lt most_vertices (vertex_total self.now + 1) || nat_lt most_cells (cell_total self.now + more)) }
    {
        MOST_VERTICES < self.vertex_count() + 1 || self.cells_pass(more)
    }

    pub(crate) fn add_vertex(
        &mut self,
        table: u32,
        key: i64,
        values: List<Value>,
    ) -> Result<(), NoMemory>
        requires { misfit self.old (Change.InsertVertex table key values) ≡ None }
        ensures ok { OnOk result (self.new ≡ changed self.old (Change.InsertVertex table key values)) }
        ensures err { OnErr result (self.new ≡ self.old) }
    {
        push_row(&mut self.vertices, table, key, values)?;
        Ok(())
    }

    fn delete_vertex_misfit(&self, table: u32, key: i64) -> Option<Why>
        ensures { result ≡ misfit self.now (Change.DeleteVertex table key) }
    {
        if self.schema.vertices().get(table as usize).is_none() {
            return Some(Why::Table);
        }
        if !self.has_vertex(table, key) {
            return Some(Why::KeyMissing);
        }
        if self.is_end(table, key) {
            return Some(Why::HasEdges);
        }
        None
    }

    fn drop_vertex(&mut self, table: u32, key: i64) -> Result<(), NoMemory>
        requires { misfit self.old (Change.DeleteVertex table key) ≡ None }
        ensures ok { OnOk result (self.new ≡ changed self.old (Change.DeleteVertex table key)) }
        ensures err { OnErr result (self.new ≡ self.old) }
    {
        let Some(seat) = seat_of(self.vertices.as_slice(), table, key) else {
            return Ok(());
        };
        remove_row(&mut self.vertices, table, seat)?;
        Ok(())
    }

    fn set_vertex_misfit(&self, table: u32, key: i64, prop: u32, value: &Value) -> Option<Why>
        ensures { result ≡ misfit self.now (Change.SetVertex table key prop value.now) }
    {
        let Some(shape) = self.schema.vertices().get(table as usize) else {
            return Some(Why::Table);
        };
        let Some(place) = shape.props.get(prop as usize) else {
            return Some(Why::Prop);
        };
        if !place.kind.fits(value.cell()) {
            return Some(Why::Kind);
        }
        if !self.has_vertex(table, key) {
            return Some(Why::KeyMissing);
        }
        None
    }

    fn put_vertex_value(
        &mut self,
        table: u32,
        key: i64,
        prop: u32,
        value: Value,
    ) -> Result<(), NoMemory>
        requires { misfit self.old (Change.SetVertex table key prop value) ≡ None }
        ensures ok { OnOk result (self.new ≡ changed self.old (Change.SetVertex table key prop value)) }
        ensures err { OnErr result (self.new ≡ self.old) }
    {
        let Some(seat) = seat_of(self.vertices.as_slice(), table, key) else {
            return Ok(());
        };
        set_value(&mut self.vertices, table, seat, prop, value)?;
        Ok(())
    }

    // ---- edges

    /// Puts an edge at the end of a table, where it fits.
    pub fn insert_edge(
        &mut self,
        table: u32,
        key: i64,
        source: i64,
        destination: i64,
        values: List<Value>,
    ) -> Result<(), ApplyFault>
        ensures { Applies self.old (Change.InsertEdge table key source destination values) result self.new }
    {
        if let Some(why) = self.insert_edge_misfit(table, key, source, destination, &values) {
            return Err(ApplyFault::Misfit(why));
        }
        self.add_edge(table, key, source, destination, values)?;
        Ok(())
    }

    fn insert_edge_misfit(
        &self,
        table: u32,
        key: i64,
        source: i64,
        destination: i64,
        values: &List<Value>,
    ) -> Option<Why>
        ensures { result ≡ misfit self.now (Change.InsertEdge table key source destination values.now) }
    {
        let Some(shape) = self.edge_table(table) else {
            return Some(Why::Table);
        };
        if values.len() != shape.props.len() {
            return Some(Why::Count);
        }
        if !values_have_kinds(&shape.props, values) {
            return Some(Why::Kind);
        }
        self.new_edge_misfit(table, key, source, destination, values.len())
    }

    /// The first of the causes that lie in the key, the ends and the limits.
    fn new_edge_misfit(
        &self,
        table: u32,
        key: i64,
        source: i64,
        destination: i64,
        width: usize,
    ) -> Option<Why>
        requires { table < length self.now.schema.edges }
        ensures { result ≡ (if key_is_taken self.now.schema.keys edge_key key self.now.edges table then Some KeyTaken
            else if not (has_vertex_in source (rows_at self.now.vertices (source_at self.now.schema table))) || not (has_vertex_in destination (rows_at self.now.vertices (destination_at self.now.schema table))) then Some EndMissing
            else if nat_lt most_edges (edge_total self.now + 1) || nat_lt most_cells (cell_total self.now + width) then Some Limit
            else None) }
    {
        if self.edge_is_taken(table, key) {
            return Some(Why::KeyTaken);
        }
        if self.ends_missing(table, source, destination) {
            return Some(Why::EndMissing);
        }
        if self.edge_passes(width) {
            return Some(Why::Limit);
        }
        None
    }

    fn edge_table(&self, table: u32) -> Option<&EdgeTable>
        ensures { option_copied result ≡ slice_get self.now.schema.edges table }
    {
        self.schema.edges().get(table as usize)
    }

    /// Whether an end is no vertex of its end table.
    fn ends_missing(&self, table: u32, source: i64, destination: i64) -> bool
        requires { table < length self.now.schema.edges }
        ensures { result ≡ (not (has_vertex_in source (rows_at self.now.vertices (source_at self.now.schema table))) || not (has_vertex_in destination (rows_at self.now.vertices (destination_at self.now.schema table)))) }
    {
        match self.edge_table(table) {
            Some(shape) => {
                !self.has_vertex(shape.source, source)
                    || !self.has_vertex(shape.destination, destination)
            }
            None => true,
        }
    }

    /// Whether one more edge with so many values is too much.
    fn edge_passes(&self, more: usize) -> bool
        ensures { result ≡ (nat_lt most_edges (edge_total self.now + 1) || nat_lt most_cells (cell_total self.now + more)) }
    {
        MOST_EDGES < self.edge_count() + 1 || self.cells_pass(more)
    }

    pub(crate) fn add_edge(
        &mut self,
        table: u32,
        key: i64,
        source: i64,
        destination: i64,
        values: List<Value>,
    ) -> Result<(), NoMemory>
        requires { misfit self.old (Change.InsertEdge table key source destination values) ≡ None }
        ensures ok { OnOk result (self.new ≡ changed self.old (Change.InsertEdge table key source destination values)) }
        ensures err { OnErr result (self.new ≡ self.old) }
    {
        let shapes = self.schema.edges();
        let Some(ends) = ends_of(shapes, self.vertices.as_slice(), table, source, destination)
        else {
            return Ok(());
        };
        let from = source_of(shapes, table);
        let to = destination_of(shapes, table);
        grow_for(&mut self.counts, from, to, ends)?;
        let place = seat_count(self.edges.as_slice(), table);
        put_ends_in(&mut self.ends, table, place, ends)?;
        push_row(&mut self.edges, table, key, values)?;
        count_ends(&mut self.counts, from, to, ends);
        Ok(())
    }

    fn delete_edge_misfit(&self, table: u32, key: i64) -> Option<Why>
        ensures { result ≡ misfit self.now (Change.DeleteEdge table key) }
    {
        if self.schema.edges().get(table as usize).is_none() {
            return Some(Why::Table);
        }
        if !self.has_edge(table, key) {
            return Some(Why::KeyMissing);
        }
        None
    }

    fn drop_edge(&mut self, table: u32, key: i64) -> Result<(), NoMemory>
        requires { misfit self.old (Change.DeleteEdge table key) ≡ None }
        ensures ok { OnOk result (self.new ≡ changed self.old (Change.DeleteEdge table key)) }
        ensures err { OnErr result (self.new ≡ self.old) }
    {
        let Some(seat) = seat_of(self.edges.as_slice(), table, key) else {
            return Ok(());
        };
        let from = source_of(self.schema.edges(), table);
        let to = destination_of(self.schema.edges(), table);
        let ends = ends_in_seat(self.ends.as_slice(), table, seat);
        remove_row(&mut self.edges, table, seat)?;
        forget_ends(&mut self.counts, from, to, ends);
        Ok(())
    }

    fn set_edge_misfit(&self, table: u32, key: i64, prop: u32, value: &Value) -> Option<Why>
        ensures { result ≡ misfit self.now (Change.SetEdge table key prop value.now) }
    {
        let Some(shape) = self.schema.edges().get(table as usize) else {
            return Some(Why::Table);
        };
        let Some(place) = shape.props.get(prop as usize) else {
            return Some(Why::Prop);
        };
        if !place.kind.fits(value.cell()) {
            return Some(Why::Kind);
        }
        if !self.has_edge(table, key) {
            return Some(Why::KeyMissing);
        }
        None
    }

    fn put_edge_value(
        &mut self,
        table: u32,
        key: i64,
        prop: u32,
        value: Value,
    ) -> Result<(), NoMemory>
        requires { misfit self.old (Change.SetEdge table key prop value) ≡ None }
        ensures ok { OnOk result (self.new ≡ changed self.old (Change.SetEdge table key prop value)) }
        ensures err { OnErr result (self.new ≡ self.old) }
    {
        let Some(seat) = seat_of(self.edges.as_slice(), table, key) else {
            return Ok(());
        };
        set_value(&mut self.edges, table, seat, prop, value)?;
        Ok(())
    }
}
