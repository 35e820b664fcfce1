//! Tables and schemas.
ghost use Rattle.std.specs.Prelude.{◌≡◌, IsTrue};
ghost use Rattle.graph_schema.specs.Schema.{IsSchema, all_named, ends_exist};
ghost use Rattle.graph_schema.specs.Answer.{GivesSchema};

use crate::SchemaFault;
use crate::faults::first_fault;
use column_types::{Kind, List, Text};
use std::alloc::{AllocError, Global};
use std::marker::Model;

/// A property of a table: its name and the kind of its values.
#[derive(Clone, Debug, Drop, PartialEq, Eq)]
pub struct Prop {
    pub name: Text,
    pub kind: Kind,
}

/// A table of vertices. Its name is the label of its vertices.
#[derive(Clone, Debug, Drop, PartialEq, Eq)]
pub struct VertexTable {
    pub name: Text,
    pub props: List<Prop>,
}

/// A table of edges, each from a vertex of one vertex table to a vertex of one vertex table, told by their places from 0.
#[derive(Clone, Debug, Drop, PartialEq, Eq)]
pub struct EdgeTable {
    pub name: Text,
    pub source: u32,
    pub destination: u32,
    pub props: List<Prop>,
}

/// Where keys differ.
#[derive(Clone, Copy, Debug, PartialEq, Eq)]
pub enum Keys {
    /// Over all vertices of a graph, and over all its edges.
    Whole,
    /// Within each table: two tables may use the same keys.
    PerTable,
}

/// Where keys differ, vertex tables in order and edge tables in order. What every schema keeps is `IsSchema`.
#[derive(Debug, Drop, PartialEq, Eq)]
pub struct Schema {
    pub keys: Keys,
    pub vertices: List<VertexTable>,
    pub edges: List<EdgeTable>,
}

impl Model for Schema {
    ghost use Rattle.graph_schema.specs.Schema.{SchemaData, IsSchema, schema_with};

    ghost Value = { SchemaData };

    ghost view = { λ s. schema_with s.keys s.vertices s.edges };

    ghost inverse = { λ s. record { keys = s.keys; vertices = s.vertices; edges = s.edges } };

    ghost invariant = { λ s. IsSchema (schema_with s.keys s.vertices s.edges) };
}

impl Schema {
    /// The schema of the tables, with keys that differ where `keys` says, or the tables' first fault: 52 for a list that is too long, 6 for a name that repeats, 50 for a
    /// property whose name has another kind in an earlier table of its list. After an error the tables are dropped.
    ///
    /// The callers know that names are names and that edge tables end in vertex tables: `all_named` and `ends_exist`
    /// tell. Memory is taken only for the path of a fault.
    pub fn new(
        alloc: Global,
        keys: Keys,
        vertices: List<VertexTable>,
        edges: List<EdgeTable>,
    ) -> Result<Schema, SchemaFault>
        requires named { IsTrue (all_named vertices edges) }
        requires ends { IsTrue (ends_exist vertices edges) }
        ensures { GivesSchema keys vertices edges result }
    {
        match first_fault(vertices.as_slice(), edges.as_slice()) {
            None => Ok(Schema {
                keys,
                vertices,
                edges,
            }),
            Some(found) => Err(SchemaFault::At {
                number: found.number(),
                path: found.path(alloc)?,
            }),
        }
    }

    /// Where keys differ.
    pub fn keys(&self) -> Keys
        ensures { result ≡ self.now.keys }
    {
        self.keys
    }

    /// The vertex tables in order.
    pub fn vertices(&self) -> &[VertexTable]
        ensures { result.now ≡ self.now.vertices }
    {
        self.vertices.as_slice()
    }

    /// The edge tables in order.
    pub fn edges(&self) -> &[EdgeTable]
        ensures { result.now ≡ self.now.edges }
    {
        self.edges.as_slice()
    }

    /// Tells a proof what every schema keeps.
    pub fn sound(&self)
        ensures { IsSchema self.now }
    {
        let _ = &self.vertices;
    }
}

impl Clone for Schema {
    ghost is_clone = { λ s t. t ≡ s };

    fn clone(&self) -> Result<Schema, AllocError> {
        Ok(Schema {
            keys: self.keys,
            vertices: self.vertices.clone()?,
            edges: self.edges.clone()?,
        })
    }
}
