//! Changes of graphs, and why one does not fit.
ghost use Rattle.std.specs.Prelude.{◌≡◌};

use column_types::{List, NoMemory, Value};
use thiserror::Error;

/// A change of a graph. Tables and properties are named by their places from 0, vertices and edges by their keys.
#[derive(Clone, Debug, Drop, PartialEq, Eq)]
pub enum Change {
    /// Puts a vertex at the end of a table.
    InsertVertex {
        table: u32,
        key: i64,
        values: List<Value>,
    },
    /// Takes a vertex out, where no edge ends at it.
    DeleteVertex {
        table: u32,
        key: i64,
    },
    /// Puts an edge at the end of a table.
    InsertEdge {
        table: u32,
        key: i64,
        source: i64,
        destination: i64,
        values: List<Value>,
    },
    /// Takes an edge out.
    DeleteEdge {
        table: u32,
        key: i64,
    },
    /// Sets one value of a vertex.
    SetVertex {
        table: u32,
        key: i64,
        prop: u32,
        value: Value,
    },
    /// Sets one value of an edge.
    SetEdge {
        table: u32,
        key: i64,
        prop: u32,
        value: Value,
    },
}

/// Why a change does not fit a graph. Of several causes the first in this order is told.
#[derive(Clone, Copy, Debug, PartialEq, Eq)]
pub enum Why {
    /// There is no such table.
    Table,
    /// The number of values is not that of the table's properties.
    Count,
    /// The table has no such property.
    Prop,
    /// A value is neither NULL nor of its property's kind.
    Kind,
    /// An inserted key is taken.
    KeyTaken,
    /// The table has no such key.
    KeyMissing,
    /// An end is no key of its end table.
    EndMissing,
    /// An edge ends at the vertex that is to be deleted.
    HasEdges,
    /// The graph would have too many vertices, edges or property cells.
    Limit,
}

/// Why a change was not made. The graph is as before.
#[derive(Clone, Copy, Debug, PartialEq, Eq, Error)]
pub enum ApplyFault {
    #[error("the change does not fit: {0:?}")]
    Misfit(Why),
    #[error("out of memory")]
    NoMemory,
}

impl From<NoMemory> for ApplyFault {
    ghost use Rattle.graph_model.specs.declared.change.ApplyFault.TheVariants.{NoMemory};

    ghost from_gives = { λ _ e. e ≡ NoMemory };

    fn from(_error: NoMemory) -> ApplyFault {
        ApplyFault::NoMemory
    }
}
