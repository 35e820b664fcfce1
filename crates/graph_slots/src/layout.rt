//! A schema with the numbers of its slots.
ghost use Rattle.std.specs.Prelude.{◌≡◌, ◌<◌, ◌≤◌, ◌+◌, map, length, slice_get, All, Some, IfOk};
ghost use Rattle.std.specs.List.{range_with_len};
ghost use Rattle.graph_slots.specs.Slots.{slots};
ghost use Rattle.graph_slots.specs.Numbers.{vertex_start, edge_start, edges_start, slot_number, HasSlot};

use crate::{SlotName, slot_names};
use column_types::{List, NoMemory};
use graph_schema::{EdgeTable, Schema, VertexTable};
use std::alloc::Global;
use std::marker::Model;

/// A schema, seen as itself. Beside it are the names of its slots in slot order, and the number of the first slot of each
/// table, so that a slot is found by its name, and its name by its number, without a walk.
#[derive(Drop)]
pub struct Layout {
    schema: Schema,
    names: List<SlotName>,
    vertex_firsts: List<u32>,
    edge_firsts: List<u32>,
}

impl Model for Layout {
    ghost use Rattle.graph_schema.specs.Schema.{SchemaData};
    ghost use Rattle.graph_slots.specs.Layout.{IsLayout};

    ghost Value = { SchemaData };

    ghost view = { λ l. l.schema };

    ghost invariant = { λ l. IsLayout l.schema l.names l.vertex_firsts l.edge_firsts };
}

/// The number of the first slot of each vertex table, and how many slots all of them have.
fn first_vertex_slots(alloc: Global, tables: &[VertexTable]) -> Result<(List<u32>, u32), NoMemory>
    requires few { length tables.now ≤ 32 }
    requires props { All (λ x. length x.props ≤ 64) tables.now }
    ensures firsts { IfOk result (λ r. r.0 ≡ map (vertex_start tables.now) (range_with_len 0 (length tables.now))) }
    ensures end { IfOk result (λ r. r.1 ≡ vertex_start tables.now (length tables.now)) }
    ensures few { IfOk result (λ r. r.1 ≤ 2080) }
{
    let mut firsts = List::new(alloc);
    let mut next = 0;
    for table in tables {
        firsts.push(next)?;
        next += 1 + table.props.len() as u32;
    }
    Ok((firsts, next))
}

/// The number of the first slot of each edge table, where that of the first table is `start`.
fn first_edge_slots(alloc: Global, start: u32, tables: &[EdgeTable]) -> Result<List<u32>, NoMemory>
    requires start { start ≤ 2080 }
    requires few { length tables.now ≤ 32 }
    requires props { All (λ x. length x.props ≤ 64) tables.now }
    ensures { IfOk result (λ firsts. firsts ≡ map (λ t. start + edge_start tables.now t) (range_with_len 0 (length tables.now))) }
{
    let mut firsts = List::new(alloc);
    let mut next = start;
    for table in tables {
        firsts.push(next)?;
        next += 5 + table.props.len() as u32;
    }
    Ok(firsts)
}

impl Layout {
    /// The layout of a schema.
    pub fn new(alloc: Global, schema: Schema) -> Result<Layout, NoMemory>
        ensures { IfOk result (λ layout. layout ≡ schema) }
    {
        schema.sound();
        let names = slot_names(alloc, &schema)?;
        let (vertex_firsts, end) = first_vertex_slots(alloc, schema.vertices())?;
        let edge_firsts = first_edge_slots(alloc, end, schema.edges())?;
        Ok(Layout {
            schema,
            names,
            vertex_firsts,
            edge_firsts,
        })
    }

    /// The schema.
    pub fn schema(&self) -> &Schema
        ensures { result.now ≡ self.now }
    {
        &self.schema
    }

    /// How many slots there are.
    pub fn len(&self) -> u32
        ensures value { result ≡ length (slots self.now) }
        ensures few { result ≤ 2208 }
    {
        self.schema.sound();
        self.names.len() as u32
    }

    /// The name of a slot.
    pub fn name(&self, slot: u32) -> SlotName
        requires { slot < length (slots self.now) }
        ensures { slice_get (slots self.now) slot ≡ Some result }
    {
        self.names.as_slice()[slot as usize]
    }

    /// The number of the slot of a name.
    #[tactic(auto, using(crate::proofs::FewNumbers::number_few))]
    pub fn number(&self, name: SlotName) -> u32
        requires { HasSlot self.now name }
        ensures { result ≡ slot_number self.now name }
    {
        self.schema.sound();
        match name {
            SlotName::VertexKey(t) => self.vertex_first(t),
            SlotName::VertexProp(t, p) => self.vertex_first(t) + (1 + p),
            SlotName::EdgeKey(t) => self.edge_first(t),
            SlotName::Source(t) => self.edge_first(t) + 1,
            SlotName::Destination(t) => self.edge_first(t) + 2,
            SlotName::Out(t) => self.edge_first(t) + 3,
            SlotName::Into(t) => self.edge_first(t) + 4,
            SlotName::EdgeProp(t, p) => self.edge_first(t) + (5 + p),
        }
    }

    /// The number of the first slot of a vertex table.
    fn vertex_first(&self, table: u32) -> u32
        requires { table < length self.now.vertices }
        ensures { result ≡ vertex_start self.now.vertices table }
    {
        self.vertex_firsts.as_slice()[table as usize]
    }

    /// The number of the first slot of an edge table.
    fn edge_first(&self, table: u32) -> u32
        requires { table < length self.now.edges }
        ensures { result ≡ edges_start self.now + edge_start self.now.edges table }
    {
        self.edge_firsts.as_slice()[table as usize]
    }
}
