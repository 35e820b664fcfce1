//! How many ends of edges stand in each seat of a vertex table.
ghost use Rattle.std.specs.Prelude.{◌≡◌, ◌+◌, ◌<◌, ◌≤◌, ℕ, [], length, replicate, slice_index_or, IfOk, OnOk};
ghost use Rattle.graph_model.specs.Counts.{CountsEnds, CountsGrow, CountsOne, count_at, counts_of, ends_there, with_count};

use crate::ends::Ends;
use column_types::{List, NoMemory};
use std::alloc::Global;

/// As many lists of numbers, all of them empty.
pub(crate) fn no_counts(alloc: Global, count: usize) -> Result<List<List<u32>>, NoMemory>
    ensures { IfOk result (λ lists. lists ≡ replicate count []) }
{
    let mut lists = List::new(alloc);
    for _i in 0..count {
        lists.push(List::new(alloc))?;
    }
    Ok(lists)
}

/// The number of a seat, 0 where it has none.
pub(crate) fn count_of(counts: &[List<u32>], table: u32, seat: u32) -> u32
    ensures { result ≡ count_at counts.now table seat }
{
    match counts.get(table as usize) {
        Some(list) => list_count(list, seat),
        None => 0,
    }
}

fn list_count(list: &List<u32>, seat: u32) -> u32
    ensures { result ≡ slice_index_or list.now seat 0 }
{
    match list.get(seat as usize) {
        Some(count) => *count,
        None => 0,
    }
}

/// Makes a list so long that it has a number for a seat. No number changes, also after an error.
fn grow(list: &mut List<u32>, seat: u32) -> Result<(), NoMemory>
    ensures long { length list.old ≤ length list.new }
    ensures each { (i : ℕ) → slice_index_or list.new i 0 ≡ slice_index_or list.old i 0 }
    ensures ok { OnOk result (seat < length list.new) }
{
    for _i in list.len()..seat as usize + 1 {
        list.push(0)?;
    }
    Ok(())
}

/// The same in the list of a table.
fn grow_at(counts: &mut List<List<u32>>, table: u32, seat: u32) -> Result<(), NoMemory>
    requires { table < length counts.old }
    ensures grown { CountsGrow counts.old counts.new }
    ensures ok { OnOk result (seat < length (counts_of counts.new table)) }
{
    grow(&mut counts.as_mut_slice()[table as usize], seat)
}

/// Makes the lists so long that they have a number for each end of an edge that starts in one table and leads to another.
pub(crate) fn grow_for(
    counts: &mut List<List<u32>>,
    from: u32,
    to: u32,
    ends: Ends,
) -> Result<(), NoMemory>
    requires from { from < length counts.old }
    requires to { to < length counts.old }
    ensures grown { CountsGrow counts.old counts.new }
    ensures source { OnOk result (ends.source < length (counts_of counts.new from)) }
    ensures destination { OnOk result (ends.destination < length (counts_of counts.new to)) }
{
    grow_at(counts, from, ends.source)?;
    grow_at(counts, to, ends.destination)?;
    Ok(())
}

/// Sets the number of a seat.
fn set_count(counts: &mut List<List<u32>>, table: u32, seat: u32, count: u32)
    requires table { table < length counts.old }
    requires seat { seat < length (counts_of counts.old table) }
    ensures { counts.new ≡ with_count counts.old table seat count }
{
    counts.as_mut_slice()[table as usize].set(seat as usize, count);
}

/// Counts one end more in a seat.
fn raise(counts: &mut List<List<u32>>, table: u32, seat: u32)
    requires table { table < length counts.old }
    requires seat { seat < length (counts_of counts.old table) }
    requires few { count_at counts.old table seat < 4294967295 }
    ensures { CountsOne table seat counts.old counts.new }
{
    let count = count_of(counts.as_slice(), table, seat);
    set_count(counts, table, seat, count + 1);
}

/// Counts one end less in a seat.
fn lower(counts: &mut List<List<u32>>, table: u32, seat: u32)
    requires { 1 ≤ count_at counts.old table seat }
    ensures { CountsOne table seat counts.new counts.old }
{
    let count = count_of(counts.as_slice(), table, seat);
    set_count(counts, table, seat, count - 1);
}

/// Counts the ends of an edge that starts in one table and leads to another.
pub(crate) fn count_ends(counts: &mut List<List<u32>>, from: u32, to: u32, ends: Ends)
    requires from { from < length counts.old }
    requires to { to < length counts.old }
    requires source { ends.source < length (counts_of counts.old from) }
    requires destination { ends.destination < length (counts_of counts.old to) }
    requires few { (t i : ℕ) → count_at counts.old t i < 4294967290 }
    ensures { CountsEnds from to ends counts.old counts.new }
{
    raise(counts, from, ends.source);
    raise(counts, to, ends.destination);
}

/// Counts the ends of an edge no more.
pub(crate) fn forget_ends(counts: &mut List<List<u32>>, from: u32, to: u32, ends: Ends)
    requires { (t i : ℕ) → ends_there from to t i ends ≤ count_at counts.old t i }
    ensures { CountsEnds from to ends counts.new counts.old }
{
    lower(counts, from, ends.source);
    lower(counts, to, ends.destination);
}
