//! Where rows stand among those that are still there.
ghost use Rattle.std.specs.Prelude.{◌≡◌, ◌<◌, ◌≤◌, ◌∷◌, ◌++◌, [], filter, length, map, pos, slice_index_or, All, IfOk, OnOk};
ghost use Rattle.std.specs.List.{range_with_len, zip};
ghost use Rattle.graph_model.specs.Stored.{edge_is_live, no_pair};
ghost use Rattle.graph_model.specs.Parts.{ArePlacesOf, HasFewEnds, place_by, rank, source_place, destination_place};

use crate::ends::Ends;
use crate::table::Table;
use column_types::{List, NoMemory};
use std::alloc::Global;

/// The places where edges start and end.
#[derive(Drop)]
pub(crate) struct EdgePlaces {
    pub(crate) sources: List<i32>,
    pub(crate) destinations: List<i32>,
}

/// How many rows before each seat are still there.
pub(crate) fn ranks_of(alloc: Global, table: &Table) -> Result<List<i32>, NoMemory>
    requires { length table.now.seats < 2147483648 }
    ensures { IfOk result (λ ranks. ranks ≡ map (λ i. pos (rank table.now.seats i)) (range_with_len 0 (length table.now.seats))) }
{
    let mut ranks = List::new(alloc);
    let mut before = 0;
    for seat in 0..table.seats() {
        ranks.push(before as i32)?;
        before += u32::from(table.sits(seat));
    }
    Ok(ranks)
}

/// The place of a seat by the ranks of its table.
fn place_at(ranks: &[i32], seat: u32) -> i32
    requires { seat < 2147483648 }
    ensures { result ≡ place_by ranks.now seat }
{
    match ranks.get(seat as usize) {
        Some(rank) => *rank,
        None => seat as i32,
    }
}

/// Appends the places of the ends of an edge, where it is still there.
fn push_places(
    table: &Table,
    ends: &[Ends],
    seat: u32,
    from: &[i32],
    to: &[i32],
    places: &mut EdgePlaces,
) -> Result<(), NoMemory>
    requires seat { seat < length table.now.seats }
    requires long { length table.now.seats ≤ length ends.now }
    requires few { All HasFewEnds (zip table.now.seats ends.now) }
    ensures sources { OnOk result (places.new.sources ≡ places.old.sources ++ map (source_place from.now) (filter edge_is_live (slice_index_or (zip table.now.seats ends.now) seat no_pair ∷ []))) }
    ensures destinations { OnOk result (places.new.destinations ≡ places.old.destinations ++ map (destination_place to.now) (filter edge_is_live (slice_index_or (zip table.now.seats ends.now) seat no_pair ∷ []))) }
{
    if !table.sits(seat) {
        return Ok(());
    }
    let end = ends[seat as usize];
    places.sources.push(place_at(from, end.source))?;
    places.destinations.push(place_at(to, end.destination))?;
    Ok(())
}

/// The places of the ends of a table's edges, by the ranks of the tables where they start and end.
pub(crate) fn places_of_ends(
    alloc: Global,
    table: &Table,
    ends: &[Ends],
    from: &[i32],
    to: &[i32],
) -> Result<EdgePlaces, NoMemory>
    requires long { length table.now.seats ≤ length ends.now }
    requires few { All HasFewEnds (zip table.now.seats ends.now) }
    ensures { IfOk result (ArePlacesOf from.now to.now (zip table.now.seats ends.now)) }
{
    let mut places = EdgePlaces {
        sources: List::new(alloc),
        destinations: List::new(alloc),
    };
    for seat in 0..table.seats() {
        push_places(table, ends, seat, from, to, &mut places)?;
    }
    Ok(places)
}
