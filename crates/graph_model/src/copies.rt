//! The rows of stored tables.
ghost use Rattle.std.specs.Prelude.{◌≡◌, ◌<◌, ◌≤◌, ◌∷◌, ◌++◌, [], filter, map, length, slice_index_or, All, IfOk, OnOk};
ghost use Rattle.std.specs.List.{zip};
ghost use Rattle.graph_model.specs.Seats.{is_live, no_seat};
ghost use Rattle.graph_model.specs.Stored.{EndsSit, edge_is_live, edge_row, edge_rows, no_pair, vertex_row, vertex_rows};

use crate::ends::Ends;
use crate::table::Table;
use crate::{EdgeRow, VertexRow};
use column_types::{List, NoMemory};
use std::alloc::Global;

/// Appends the vertex that sits in a seat, where one does.
fn copy_vertex(
    alloc: Global,
    table: &Table,
    seat: u32,
    rows: &mut List<VertexRow>,
) -> Result<(), NoMemory>
    requires { seat < length table.now.seats }
    ensures { OnOk result (rows.new ≡ rows.old ++ map vertex_row (filter is_live (slice_index_or table.now.seats seat no_seat ∷ []))) }
{
    if !table.sits(seat) {
        return Ok(());
    }
    let values = table.values_at(alloc, seat)?;
    let key = table.key_at(seat);
    rows.push(VertexRow { key, values })?;
    Ok(())
}

/// The vertices of a table.
pub(crate) fn copy_vertices(alloc: Global, table: &Table) -> Result<List<VertexRow>, NoMemory>
    ensures { IfOk result (λ rows. rows ≡ vertex_rows table.now) }
{
    let mut rows = List::new(alloc);
    for seat in 0..table.seats() {
        copy_vertex(alloc, table, seat, &mut rows)?;
    }
    Ok(rows)
}

/// Appends the edge that sits in a seat, where one does. Its ends sit in these tables.
fn copy_edge(
    alloc: Global,
    table: &Table,
    ends: &[Ends],
    from: &Table,
    to: &Table,
    seat: u32,
    rows: &mut List<EdgeRow>,
) -> Result<(), NoMemory>
    requires seat { seat < length table.now.seats }
    requires long { length table.now.seats ≤ length ends.now }
    requires sit { All (EndsSit from.now.seats to.now.seats) (zip table.now.seats ends.now) }
    ensures { OnOk result (rows.new ≡ rows.old ++ map (edge_row from.now.seats to.now.seats) (filter edge_is_live (slice_index_or (zip table.now.seats ends.now) seat no_pair ∷ []))) }
{
    if !table.sits(seat) {
        return Ok(());
    }
    let end = ends[seat as usize];
    let values = table.values_at(alloc, seat)?;
    let key = table.key_at(seat);
    let source = from.key_at(end.source);
    let destination = to.key_at(end.destination);
    rows.push(EdgeRow {
        key,
        source,
        destination,
        values,
    })?;
    Ok(())
}

/// The edges of a table, which starts and ends in these tables.
pub(crate) fn copy_edges(
    alloc: Global,
    table: &Table,
    ends: &[Ends],
    from: &Table,
    to: &Table,
) -> Result<List<EdgeRow>, NoMemory>
    requires long { length table.now.seats ≤ length ends.now }
    requires sit { All (EndsSit from.now.seats to.now.seats) (zip table.now.seats ends.now) }
    ensures { IfOk result (λ rows. rows ≡ edge_rows from.now.seats to.now.seats (zip table.now.seats ends.now)) }
{
    let mut rows = List::new(alloc);
    for seat in 0..table.seats() {
        copy_edge(alloc, table, ends, from, to, seat, &mut rows)?;
    }
    Ok(rows)
}
