//! The edges of a table, seen from one of their ends.
ghost use Rattle.std.specs.Prelude.{◌≡◌, ◌<◌, length};
ghost use Rattle.graph_model.specs.Graph.{source_at, destination_at};
ghost use Rattle.graph_slots.specs.Meaning.{source_places, destination_places};
ghost use Rattle.algo_digraph.specs.DigraphOf.{table_sizes};
ghost use Rattle.algo_digraph.specs.Sides.{side_row, IsSideOf};

use crate::VertexOrder;
use csr_rows::Rows;
use graph_slots::SlotName;
use graph_snap::Snapshot;

/// The edges of a table as they are read from a vertex at one of their ends: the rows of the table, which are lent, and for each
/// edge the place of the vertex at its other end, which are lent too. Edges and vertices are numbered on from table to table.
#[derive(Drop)]
pub(crate) struct Side<'a> {
    /// The number of the table's first edge.
    pub(crate) first_edge: u32,
    /// The index of the first vertex of the table on this side, and of that on the other.
    pub(crate) here_first: u32,
    pub(crate) there_first: u32,
    pub(crate) rows: &'a Rows,
    pub(crate) there: &'a [i32],
}

impl<'a> Side<'a> {
    /// The places of the edges of a vertex; none where the vertex is not of the table on this side.
    pub(crate) fn row(&self, v: u32) -> &'a [u32]
        ensures { result.now ≡ side_row self.now v }
    {
        if v < self.here_first {
            return &[];
        }
        let rows = self.rows;
        rows.row(v - self.here_first)
    }
}

/// The edges of a table from the vertices where they start.
pub(crate) fn out_side<'a>(
    on: &'a Snapshot,
    order: &VertexOrder,
    table: u32,
    first_edge: u32,
) -> Side<'a>
    requires order { order.now ≡ table_sizes on.now }
    requires table { table < length on.now.schema.edges }
    ensures { IsSideOf on.now first_edge (source_at on.now.schema table) (destination_at on.now.schema table)
        (source_places on.now table) (destination_places on.now table) result }
{
    on.sound();
    Side {
        first_edge,
        here_first: order.first(source_table(on, table)),
        there_first: order.first(destination_table(on, table)),
        rows: on.rows(SlotName::Out(table)),
        there: on.destination_places(table),
    }
}

/// The edges of a table from the vertices where they end.
pub(crate) fn in_side<'a>(
    on: &'a Snapshot,
    order: &VertexOrder,
    table: u32,
    first_edge: u32,
) -> Side<'a>
    requires order { order.now ≡ table_sizes on.now }
    requires table { table < length on.now.schema.edges }
    ensures { IsSideOf on.now first_edge (destination_at on.now.schema table) (source_at on.now.schema table)
        (destination_places on.now table) (source_places on.now table) result }
{
    on.sound();
    Side {
        first_edge,
        here_first: order.first(destination_table(on, table)),
        there_first: order.first(source_table(on, table)),
        rows: on.rows(SlotName::Into(table)),
        there: on.source_places(table),
    }
}

/// The vertex table where the edges of a table start.
fn source_table(on: &Snapshot, table: u32) -> u32
    requires { table < length on.now.schema.edges }
    ensures { result ≡ source_at on.now.schema table }
{
    on.schema().edges()[table as usize].source
}

/// The vertex table where they end.
fn destination_table(on: &Snapshot, table: u32) -> u32
    requires { table < length on.now.schema.edges }
    ensures { result ≡ destination_at on.now.schema table }
{
    on.schema().edges()[table as usize].destination
}
