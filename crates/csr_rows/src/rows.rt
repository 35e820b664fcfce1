//! The rows of a list of ends.
ghost use Rattle.std.specs.Prelude.{◌≡◌, ◌+◌, ◌-◌, ◌*◌, ◌<◌, ◌≤◌, All, IfOk, OnOk, length, map, take, drop, count_by, nat_lt};
ghost use Rattle.std.specs.List.Sorted.{IsPermutation, IsNonDecreasing};
ghost use Rattle.csr_rows.specs.Rows.{rows_of, row_at, row_count};
ghost use Rattle.csr_rows.specs.Offsets.{pairs_of, place_in, offsets_of, AreOffsets};

use column_types::{List, NoMemory, Steps};
use std::alloc::Global;
use std::marker::Model;
use std::sync::ledger::Ledger;

/// How many numbers have the same upper half: an end and a place are one number, with the end in its upper half.
const HALF: u64 = 4_294_967_296;

/// For each vertex the places of its edges, in rising order. Seen as the list of its rows, up to the last one that is not
/// empty. The rows stand one after another in one list, and another one has where each row begins, and where the last one ends.
#[derive(Debug, Drop)]
pub struct Rows {
    offsets: List<u32>,
    places: List<u32>,
}

impl Model for Rows {
    ghost use Rattle.std.specs.Prelude.{List, ℕ};
    ghost use Rattle.csr_rows.specs.Offsets.{rows_between, AreOffsets};

    ghost Value = { List (List ℕ) };

    ghost view = { λ r. rows_between r.offsets r.places };

    ghost invariant = { λ r. AreOffsets r.offsets r.places };
}

impl Rows {
    /// The rows of `ends`, each of which is one of `n` vertices: row `i` lists the places whose end is `i`. The rows do not
    /// depend on `n`. It counts a step for each end, and after an error for some of them. All pairs of an end and its place are
    /// sorted, and the offsets are read off: time is that of one sort, and memory is 8 bytes an end while it works and 4 bytes an
    /// end and a vertex afterwards.
    pub fn build<L: Ledger>(
        alloc: Global,
        n: u32,
        ends: &[u32],
        steps: &mut Steps<L>,
    ) -> Result<Rows, NoMemory>
        requires below { All (λ e. e < n) ends.now }
        requires few { length ends.now < 4294967295 }
        ensures ok { IfOk result (λ rows. rows ≡ rows_of ends.now) }
        ensures counted { OnOk result (steps.new ≡ steps.old + length ends.now) }
        ensures least { steps.old ≤ steps.new }
        ensures most { steps.new ≤ steps.old + length ends.now }
    {
        let pairs = sorted_pairs(alloc, ends, steps)?;
        let offsets = offsets_in(alloc, pairs.as_slice(), row_count(ends))?;
        let places = places_in(alloc, pairs.as_slice())?;
        Ok(Rows { offsets, places })
    }

    /// The edge places of vertex `i`. It is empty past the last row.
    pub fn row(&self, i: u32) -> &[u32]
        ensures { result.now ≡ row_at self.now i }
    {
        let offsets = self.offsets.as_slice();
        let next = i as usize + 1;
        if next >= offsets.len() {
            return &[];
        }
        &self.places.as_slice()[offsets[i as usize] as usize..offsets[next] as usize]
    }
}

/// One more than the greatest end.
fn row_count(ends: &[u32]) -> usize
    ensures { result ≡ row_count ends.now }
{
    let mut count = 0;
    for end in ends {
        count = count.max(*end as usize + 1);
    }
    count
}

/// The pairs of each end and its place, in rising order, for a step each.
fn sorted_pairs<L: Ledger>(
    alloc: Global,
    ends: &[u32],
    steps: &mut Steps<L>,
) -> Result<List<u64>, NoMemory>
    requires few { length ends.now < 4294967295 }
    ensures same { IfOk result (IsPermutation (pairs_of ends.now)) }
    ensures rising { IfOk result IsNonDecreasing }
    ensures counted { OnOk result (steps.new ≡ steps.old + length ends.now) }
    ensures least { steps.old ≤ steps.new }
    ensures most { steps.new ≤ steps.old + length ends.now }
{
    let mut pairs = Vec::with_capacity(alloc, ends.len())?;
    for (place, end) in ends.iter().enumerate() {
        steps.tick();
        pairs.push(*end as u64 * HALF + place as u64)?;
    }
    pairs.sort_unstable();
    Ok(List::from_vec(pairs))
}

/// For each row where it begins among the pairs, and where the last one ends: how many pairs are below the row.
fn offsets_in(alloc: Global, pairs: &[u64], rows: usize) -> Result<List<u32>, NoMemory>
    requires rising { IsNonDecreasing pairs.now }
    requires few { length pairs.now < 4294967295 }
    requires rows { rows < 4294967296 }
    ensures { IfOk result (λ offsets. offsets ≡ offsets_of pairs.now rows) }
{
    let mut offsets = List::new(alloc);
    let mut from = 0;
    for row in 0..rows + 1 {
        from = first_from(pairs, from, row as u64 * HALF);
        offsets.push(from as u32)?;
    }
    Ok(offsets)
}

/// The place of the first pair that is not below a limit, where those before `from` are below it.
fn first_from(pairs: &[u64], from: usize, limit: u64) -> usize
    requires rising { IsNonDecreasing pairs.now }
    requires from { from ≤ count_by (λ pair. nat_lt pair limit) pairs.now }
    ensures { result ≡ count_by (λ pair. nat_lt pair limit) pairs.now }
{
    let mut at = from;
    while at < pairs.len() {
        if pairs[at] >= limit {
            return at;
        }
        at += 1;
    }
    at
}

/// The places of the pairs.
fn places_in(alloc: Global, pairs: &[u64]) -> Result<List<u32>, NoMemory>
    ensures { IfOk result (λ places. places ≡ map place_in pairs.now) }
{
    let mut places = Vec::with_capacity(alloc, pairs.len())?;
    for pair in pairs {
        places.push((*pair % HALF) as u32)?;
    }
    Ok(List::from_vec(places))
}
