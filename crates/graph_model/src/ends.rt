//! The seats where edges start and end.
ghost use Rattle.std.specs.Prelude.{◌≡◌, ◌+◌, ◌<◌, ◌≤◌, ◌++◌, ◌∷◌, [], length, take, replicate, position, slice_get, slice_index_or, IfOk, OnOk, OnErr};
ghost use Rattle.graph_model.specs.Graph.{source_table, destination_table};
ghost use Rattle.graph_model.specs.Seats.{sits};
ghost use Rattle.graph_model.specs.Stored.{PutsEnds, ends_at as ends_in, seats_at, both_ends, no_ends as nowhere};

use crate::EdgeTable;
use crate::table::Table;
use crate::tables::seat_of;
use column_types::{List, NoMemory};
use std::alloc::Global;

/// The seats where an edge starts and ends, in the end tables of its table.
#[derive(Clone, Copy, Debug, PartialEq, Eq)]
pub(crate) struct Ends {
    pub(crate) source: u32,
    pub(crate) destination: u32,
}

/// Puts ends at a place: behind the last, or over those that were put there before memory ran out.
fn put_ends(list: &mut List<Ends>, place: u32, ends: Ends) -> Result<(), NoMemory>
    requires { place ≤ length list.old }
    ensures ok { OnOk result (take (place + 1) list.new ≡ take place list.old ++ ends ∷ []) }
    ensures err { OnErr result (list.new ≡ list.old) }
{
    if (place as usize) < list.len() {
        list.set(place as usize, ends);
        return Ok(());
    }
    list.push(ends)
}

/// The same in the list of a table.
pub(crate) fn put_ends_in(
    lists: &mut List<List<Ends>>,
    table: u32,
    place: u32,
    ends: Ends,
) -> Result<(), NoMemory>
    requires table { table < length lists.old }
    requires place { place ≤ length (ends_in lists.old table) }
    ensures ok { OnOk result (PutsEnds table place ends lists.old lists.new) }
    ensures err { OnErr result (lists.new ≡ lists.old) }
{
    put_ends(&mut lists.as_mut_slice()[table as usize], place, ends)
}

/// As many lists of ends, all of them empty.
pub(crate) fn no_ends(alloc: Global, count: usize) -> Result<List<List<Ends>>, NoMemory>
    ensures { IfOk result (λ lists. lists ≡ replicate count []) }
{
    let mut lists = List::new(alloc);
    for _i in 0..count {
        lists.push(List::new(alloc))?;
    }
    Ok(lists)
}

/// The seats where two keys sit in the end tables of an edge table, where both do.
pub(crate) fn ends_of(
    shapes: &[EdgeTable],
    vertices: &[Table],
    table: u32,
    source: i64,
    destination: i64,
) -> Option<Ends>
    requires { table < length shapes.now }
    ensures { let shape = slice_get shapes.now table in
        result ≡ both_ends (position (sits source) (seats_at vertices.now (source_table shape))) (position (sits destination) (seats_at vertices.now (destination_table shape))) }
{
    let shape = &shapes[table as usize];
    let source = seat_of(vertices, shape.source, source)?;
    let destination = seat_of(vertices, shape.destination, destination)?;
    Some(Ends {
        source,
        destination,
    })
}

/// The seats where the edge in a seat of a table starts and ends.
pub(crate) fn ends_in_seat(lists: &[List<Ends>], table: u32, seat: u32) -> Ends
    requires table { table < length lists.now }
    requires seat { seat < length (ends_in lists.now table) }
    ensures { result ≡ slice_index_or (ends_in lists.now table) seat nowhere }
{
    lists[table as usize].as_slice()[seat as usize]
}

/// The vertex table in which the edges of a table start.
pub(crate) fn source_of(shapes: &[EdgeTable], table: u32) -> u32
    requires { table < length shapes.now }
    ensures { result ≡ source_table (slice_get shapes.now table) }
{
    shapes[table as usize].source
}

/// The vertex table in which they end.
pub(crate) fn destination_of(shapes: &[EdgeTable], table: u32) -> u32
    requires { table < length shapes.now }
    ensures { result ≡ destination_table (slice_get shapes.now table) }
{
    shapes[table as usize].destination
}
