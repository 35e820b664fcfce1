//! The queue of a search: vertices by how near they are.
//!
//! It is a radix heap. No vertex is queued nearer than the last wave was, and an entry lies in the bucket whose number says which is
//! the highest binary digit where its weight differs from that wave's: none, the lowest, and so on. So the first bucket that has
//! entries has the nearest, and each entry that is spread anew falls into a bucket before its own. No contract speaks of this order:
//! it is there for speed, and a wave in any order gives the same weights.
ghost use Rattle.std.specs.Prelude.{◌≡◌, ℕ, ◌++◌, ◌<◌, ◌≤◌, IfOk, OnOk, IfNone, IfSome, Contains, [], ◌∷◌, length, slice_index_or, slice_set, replicate};
ghost use Rattle.algo_paths.specs.Queue.{entries, IsPut, IsTaken, IsPlaced, IsSpread, IsWave};

use column_types::{List, NoMemory};
use std::alloc::Global;
use std::marker::Model;
use std::mem;

/// One more than the binary digits of a weight.
const BUCKETS: usize = 65;

/// Vertices, each with the weight that it was queued with. Seen as the list of these entries.
#[derive(Drop)]
pub(crate) struct Queue {
    nearest: u64,
    buckets: List<List<(u64, u32)>>,
}

impl Model for Queue {
    ghost use Rattle.std.specs.Prelude.{◌≡◌, List, ℕ, length};
    ghost use Rattle.algo_paths.specs.Queue.{entries};

    ghost Value = { List (ℕ × ℕ) };

    ghost view = { λ queue. entries queue.buckets };

    ghost invariant = { λ queue. length queue.buckets ≡ 65 };
}

impl Queue {
    /// A queue with no entry.
    pub(crate) fn new(alloc: Global) -> Result<Queue, NoMemory>
        ensures { IfOk result (λ queue. queue ≡ []) }
    {
        let buckets = no_entries(alloc)?;
        Ok(Queue {
            nearest: 0,
            buckets,
        })
    }

    /// Queues a vertex of a weight.
    pub(crate) fn push(&mut self, v: u32, weight: u64) -> Result<(), NoMemory>
        ensures { OnOk result (IsPut (weight, v) self.old self.new) }
    {
        let place = place_of(self.nearest, weight);
        put(&mut self.buckets, place, (weight, v))
    }

    /// Takes the nearest vertices out of the queue, all that are equally near, and lists those whose weight is still the one that
    /// they were queued with. There are none where the queue is empty.
    pub(crate) fn next_wave(
        &mut self,
        alloc: Global,
        best: &[u64],
    ) -> Result<Option<Vec<u32>>, NoMemory>
        requires { (x : ℕ × ℕ) → Contains self.old x → x.1 < length best.now }
        ensures none { IfOk result (λ found. IfNone found (self.old ≡ [])) }
        ensures some { IfOk result (λ found. IfSome found (λ wave. IsWave best.now self.old self.new wave.items)) }
    {
        let Some(bucket) = take_filled(alloc, &mut self.buckets) else {
            return Ok(None);
        };
        let nearest = least(bucket.as_slice());
        self.nearest = nearest;
        let wave = spread(alloc, &mut self.buckets, nearest, bucket.as_slice(), best)?;
        Ok(Some(wave))
    }
}

/// The buckets, all of them empty.
fn no_entries(alloc: Global) -> Result<List<List<(u64, u32)>>, NoMemory>
    ensures { IfOk result (λ buckets. buckets ≡ replicate 65 []) }
{
    let mut buckets = List::new(alloc);
    for _place in 0..BUCKETS {
        buckets.push(List::new(alloc))?;
    }
    Ok(buckets)
}

/// The bucket for a weight.
fn place_of(nearest: u64, weight: u64) -> usize
    ensures { result ≤ 64 }
{
    64 - (nearest ^ weight).leading_zeros() as usize
}

/// Queues an entry in a bucket.
fn put(
    buckets: &mut List<List<(u64, u32)>>,
    place: usize,
    entry: (u64, u32),
) -> Result<(), NoMemory>
    requires { place < length buckets.old }
    ensures len { length buckets.new ≡ length buckets.old }
    ensures put { OnOk result (IsPut entry (entries buckets.old) (entries buckets.new)) }
{
    append(buckets, place, entry)
}

/// Appends an entry to a bucket.
fn append(
    buckets: &mut List<List<(u64, u32)>>,
    place: usize,
    entry: (u64, u32),
) -> Result<(), NoMemory>
    requires { place < length buckets.old }
    ensures len { length buckets.new ≡ length buckets.old }
    ensures ok { OnOk result (buckets.new ≡ slice_set buckets.old place (slice_index_or buckets.old place [] ++ entry ∷ [])) }
{
    buckets.as_mut_slice()[place].push(entry)
}

/// Takes all entries out of the first bucket that has some. There is no such bucket where there are no entries.
fn take_filled(alloc: Global, buckets: &mut List<List<(u64, u32)>>) -> Option<List<(u64, u32)>>
    ensures len { length buckets.new ≡ length buckets.old }
    ensures none { IfNone result (entries buckets.old ≡ []) }
    ensures some { IfSome result (λ bucket. IsTaken bucket (entries buckets.old) (entries buckets.new)) }
{
    match first_filled(buckets.as_slice()) {
        Some(place) => Some(take(alloc, buckets, place)),
        None => None,
    }
}

fn first_filled(buckets: &[List<(u64, u32)>]) -> Option<usize>
    ensures none { IfNone result (entries buckets.now ≡ []) }
    ensures some { IfSome result (λ place. (place < length buckets.now) × (0 < length (slice_index_or buckets.now place []))) }
{
    for place in 0..buckets.len() {
        if !buckets[place].is_empty() {
            return Some(place);
        }
    }
    None
}

/// Empties a bucket.
fn take(alloc: Global, buckets: &mut List<List<(u64, u32)>>, place: usize) -> List<(u64, u32)>
    requires { place < length buckets.old }
    ensures taken { result ≡ slice_index_or buckets.old place [] }
    ensures left { buckets.new ≡ slice_set buckets.old place [] }
{
    mem::replace(&mut buckets.as_mut_slice()[place], List::new(alloc))
}

/// The least weight of some entries.
fn least(bucket: &[(u64, u32)]) -> u64
    requires { 0 < length bucket.now }
    ensures { (x : ℕ × ℕ) × Contains bucket.now x × (x.0 ≡ result) }
{
    let mut least = bucket[0].0;
    for entry in bucket {
        least = least.min(entry.0);
    }
    least
}

/// Puts the entries of a bucket into others, but lists the vertices of the nearest and drops the entries whose weight is no longer
/// the vertex's.
fn spread(
    alloc: Global,
    buckets: &mut List<List<(u64, u32)>>,
    nearest: u64,
    bucket: &[(u64, u32)],
    best: &[u64],
) -> Result<Vec<u32>, NoMemory>
    requires places { length buckets.old ≡ 65 }
    requires within { (x : ℕ × ℕ) → Contains bucket.now x → x.1 < length best.now }
    ensures len { length buckets.new ≡ length buckets.old }
    ensures spread { IfOk result (λ wave. IsSpread best.now nearest bucket.now (entries buckets.old) (entries buckets.new) wave.items) }
{
    let mut wave = Vec::new(alloc);
    for entry in bucket {
        place_entry(buckets, &mut wave, nearest, best, *entry)?;
    }
    Ok(wave)
}

fn place_entry(
    buckets: &mut List<List<(u64, u32)>>,
    wave: &mut Vec<u32>,
    nearest: u64,
    best: &[u64],
    entry: (u64, u32),
) -> Result<(), NoMemory>
    requires places { length buckets.old ≡ 65 }
    requires within { entry.1 < length best.now }
    ensures len { length buckets.new ≡ length buckets.old }
    ensures placed { OnOk result (IsPlaced best.now nearest entry (entries buckets.old) (entries buckets.new) wave.old.items wave.new.items) }
{
    let (weight, v) = entry;
    if best[v as usize] != weight {
        return Ok(());
    }
    if weight != nearest {
        return put(buckets, place_of(nearest, weight), entry);
    }
    wave.push(v)?;
    Ok(())
}
