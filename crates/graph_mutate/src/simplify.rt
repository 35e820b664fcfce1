//! Edges without loops, and one for each pair of ends.
ghost use Rattle.std.specs.Prelude.{◌≡◌, ◌<◌, ◌&&◌, ◌||◌, ◌==◌, [], not, ℤ, All, IfOk, OnOk, length};
ghost use Rattle.std.specs.Ordering.{int_eq};
ghost use Rattle.std.specs.HashSet.{contains};
ghost use Rattle.graph_model.specs.Keys.{rows_at};
ghost use Rattle.graph_model.specs.Graph.{source_at, destination_at};
ghost use Rattle.graph_columns.specs.Keys.{edge_keys_at};
ghost use Rattle.graph_mutate.specs.Taken.{taken};
ghost use Rattle.graph_mutate.specs.Pairs.{same_pair};
ghost use Rattle.graph_mutate.specs.EdgeTables.{Tells};
ghost use Rattle.graph_mutate.specs.Simplified.{simple_from, simplified};

use crate::edge_lists::{EdgeLists, push_ends};
use column_types::{List, NoMemory};
use graph_snap::Snapshot;
use std::alloc::Global;
use std::collections::HashSet;

/// Whether an edge table starts and ends in one vertex table.
fn has_loops(base: &Snapshot, table: u32) -> bool
    requires { table < length base.now.schema.edges }
    ensures { result ≡ (source_at base.now.schema table == destination_at base.now.schema table) }
{
    let shape = &base.schema().edges()[table as usize];
    shape.source == shape.destination
}

/// Whether an edge is no loop, and no edge before it has the same ends. `seen` are the ends of those before it; those of the
/// edge are put to them.
fn stays(
    seen: &mut HashSet<(i32, i32)>,
    loops: bool,
    source: i32,
    destination: i32,
) -> Result<bool, NoMemory>
    ensures answer { IfOk result (λ b. b ≡ (not (loops && int_eq source destination) && not (contains same_pair seen.old (source, destination)))) }
    ensures seen { OnOk result ((s d : ℤ) → contains same_pair seen.new (s, d) ≡ (same_pair (s, d) (source, destination) || contains same_pair seen.old (s, d))) }
{
    let is_new = seen.insert((source, destination))?;
    let is_loop = loops && source == destination;
    Ok(!is_loop && is_new)
}

/// The places of the edges of a table that stay.
fn simple_places(alloc: Global, base: &Snapshot, table: u32) -> Result<List<u32>, NoMemory>
    requires { table < length base.now.schema.edges }
    ensures taken { IfOk result (λ places. taken (rows_at base.now.edges table) places ≡ simple_from (source_at base.now.schema table == destination_at base.now.schema table) [] (rows_at base.now.edges table)) }
    ensures within { IfOk result (λ places. All (λ p. p < length (rows_at base.now.edges table)) places) }
{
    base.sound();
    let loops = has_loops(base, table);
    let sources = base.source_places(table);
    let destinations = base.destination_places(table);
    let mut seen = HashSet::new(alloc);
    let mut places = List::new(alloc);
    for place in 0..base.edge_count(table) {
        let (source, destination) = (sources[place as usize], destinations[place as usize]);
        if stays(&mut seen, loops, source, destination)? {
            places.push(place)?;
        }
    }
    Ok(places)
}

/// The keys of the edges of a table at these places.
fn keys_at(
    alloc: Global,
    base: &Snapshot,
    table: u32,
    places: &[u32],
) -> Result<List<i64>, NoMemory>
    requires table { table < length base.now.schema.edges }
    requires within { All (λ p. p < length (rows_at base.now.edges table)) places.now }
    ensures { IfOk result (λ keys. keys ≡ taken (edge_keys_at base.now table) places.now) }
{
    let all = base.edge_keys(table);
    let mut keys = List::new(alloc);
    for place in places {
        keys.push(all[*place as usize])?;
    }
    Ok(keys)
}

/// The edges of a table that stay.
pub(crate) fn simple_edges(
    alloc: Global,
    base: &Snapshot,
    table: u32,
) -> Result<EdgeLists, NoMemory>
    requires { table < length base.now.schema.edges }
    ensures { IfOk result (Tells base.now (simplified base.now) table) }
{
    base.sound();
    let origins = simple_places(alloc, base, table)?;
    let keys = keys_at(alloc, base, table, origins.as_slice())?;
    let mut sources = List::new(alloc);
    push_ends(&mut sources, base.source_places(table), origins.as_slice())?;
    let mut destinations = List::new(alloc);
    push_ends(
        &mut destinations,
        base.destination_places(table),
        origins.as_slice(),
    )?;
    Ok(EdgeLists {
        keys,
        sources,
        destinations,
        origins,
    })
}
