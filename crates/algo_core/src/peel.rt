//! Vertices get their numbers and go.
ghost use Rattle.std.specs.Prelude.{◌≡◌, ◌≢◌, ◌⊎◌, ℕ, ◌+◌, ◌*◌, ◌^◌, ◌<◌, ◌≤◌, ◌∷◌, [], OnOk, Contains, Some, None, Vec, length, map, sum, slice_index};
ghost use Rattle.algo_digraph.specs.Arcs.{out_arcs, in_arcs};
ghost use Rattle.algo_core.specs.Peeling.{core_of, IsPeeling, IsLowering};

use crate::wave::{is_wave, peel_wave};
use algo_digraph::{FlatDigraph, Marks};
use column_types::{List, NoMemory};
use std::alloc::Global;
use std::thread::Threads;

/// Gives their number to the vertices of a queue and to all that come down to the level after them.
pub(crate) fn peel_queue<R: Threads + Sync>(
    rt: &R,
    alloc: Global,
    digraph: &FlatDigraph<'_>,
    cores: &mut Marks,
    ends: &mut List<u32>,
    queue: Vec<u32>,
    level: u32,
    workers: u32,
) -> Result<(), NoMemory>
    requires peeling { IsPeeling digraph.now level cores.old ends.old }
    requires level { level < 2 ^ 31 }
    requires queued { (v : ℕ) → Contains queue.items v → (v < digraph.now.vertices) × (slice_index ends.old v ≤ level) }
    requires workers { (1 ≤ workers) × (workers ≤ 64) }
    ensures peeling { OnOk result (IsPeeling digraph.now level cores.new ends.new) }
    ensures kept { OnOk result ((v k : ℕ) → core_of cores.old v ≡ Some k → core_of cores.new v ≡ Some k) }
    ensures gone { OnOk result ((v : ℕ) → Contains queue.items v → core_of cores.new v ≢ None) }
{
    let mut queue = queue;
    'queue: while !queue.is_empty() {
        peel_some(rt, alloc, digraph, cores, ends, &mut queue, level, workers)?;
    }
    Ok(())
}

/// Takes vertices off a queue, all of them where these are worth several threads and else the last one, and gives them their number.
fn peel_some<R: Threads + Sync>(
    rt: &R,
    alloc: Global,
    digraph: &FlatDigraph<'_>,
    cores: &mut Marks,
    ends: &mut List<u32>,
    queue: &mut Vec<u32>,
    level: u32,
    workers: u32,
) -> Result<(), NoMemory>
    requires peeling { IsPeeling digraph.now level cores.old ends.old }
    requires level { level < 2 ^ 31 }
    requires queued { (v : ℕ) → Contains queue.old.items v → (v < digraph.now.vertices) × (slice_index ends.old v ≤ level) }
    requires some { 0 < length queue.old.items }
    requires workers { (1 ≤ workers) × (workers ≤ 64) }
    ensures peeling { OnOk result (IsPeeling digraph.now level cores.new ends.new) }
    ensures kept { OnOk result ((v k : ℕ) → core_of cores.old v ≡ Some k → core_of cores.new v ≡ Some k) }
    ensures queued { OnOk result ((v : ℕ) → Contains queue.new.items v → (v < digraph.now.vertices) × (slice_index ends.new v ≤ level)) }
    ensures done { OnOk result ((v : ℕ) → Contains queue.old.items v → Contains queue.new.items v ⊎ (core_of cores.new v ≢ None)) }
    ensures work { OnOk result (2 * sum ends.new + length queue.new.items < 2 * sum ends.old + length queue.old.items) }
{
    if is_wave(workers, queue.len()) {
        *queue = peel_wave(
            rt,
            alloc,
            digraph,
            cores,
            ends,
            queue.as_slice(),
            level,
            workers,
        )?;
        return Ok(());
    }
    let Some(v) = queue.pop() else {
        return Ok(());
    };
    peel_vertex(digraph, cores, ends, queue, v, level)?;
    Ok(())
}

/// Gives its number to a vertex that has none. The counts of its neighbors fall, and those that come down to the level are
/// queued.
fn peel_vertex(
    digraph: &FlatDigraph<'_>,
    cores: &mut Marks,
    ends: &mut List<u32>,
    queue: &mut Vec<u32>,
    v: u32,
    level: u32,
) -> Result<(), NoMemory>
    requires peeling { IsPeeling digraph.now level cores.old ends.old }
    requires level { level < 2 ^ 31 }
    requires vertex { v < digraph.now.vertices }
    requires low { slice_index ends.old v ≤ level }
    ensures peeling { OnOk result (IsPeeling digraph.now level cores.new ends.new) }
    ensures kept { OnOk result ((w k : ℕ) → core_of cores.old w ≡ Some k → core_of cores.new w ≡ Some k) }
    ensures gone { OnOk result (core_of cores.new v ≢ None) }
    ensures queued { OnOk result ((w : ℕ) → Contains queue.new.items w → Contains queue.old.items w ⊎ ((w < digraph.now.vertices) × (slice_index ends.new w ≤ level))) }
    ensures stays { OnOk result ((w : ℕ) → Contains queue.old.items w → Contains queue.new.items w) }
    ensures less { OnOk result ((w : ℕ) → slice_index ends.new w ≤ slice_index ends.old w) }
    ensures work { OnOk result (2 * sum ends.new + length queue.new.items ≤ 2 * sum ends.old + length queue.old.items) }
{
    if !cores.is_free(v) {
        return Ok(());
    }
    cores.set(v, level);
    lower_targets(digraph, ends, queue, v, level)?;
    lower_sources(digraph, ends, queue, v, level)?;
    Ok(())
}

/// Counts off the edge that goes from `v` to each of its targets.
fn lower_targets(
    digraph: &FlatDigraph<'_>,
    ends: &mut List<u32>,
    queue: &mut Vec<u32>,
    v: u32,
    level: u32,
) -> Result<(), NoMemory>
    requires { length ends.old ≡ digraph.now.vertices }
    ensures { OnOk result (IsLowering level (map (λ a. a.vertex) (out_arcs digraph.now v)) ends.old ends.new queue.old.items queue.new.items) }
{
    for arc in digraph.out_arcs(v) {
        lower_end(ends, queue, arc.vertex, level)?;
    }
    Ok(())
}

/// Counts off the edge that goes to `v` from each of its sources.
fn lower_sources(
    digraph: &FlatDigraph<'_>,
    ends: &mut List<u32>,
    queue: &mut Vec<u32>,
    v: u32,
    level: u32,
) -> Result<(), NoMemory>
    requires { length ends.old ≡ digraph.now.vertices }
    ensures { OnOk result (IsLowering level (map (λ a. a.vertex) (in_arcs digraph.now v)) ends.old ends.new queue.old.items queue.new.items) }
{
    for arc in digraph.in_arcs(v) {
        lower_end(ends, queue, arc.vertex, level)?;
    }
    Ok(())
}

/// Counts off one edge end of a vertex whose count is above the level, and queues it where that brings it down to the level. No
/// other count falls: those vertices have gone or are queued.
pub(crate) fn lower_end(
    ends: &mut List<u32>,
    queue: &mut Vec<u32>,
    w: u32,
    level: u32,
) -> Result<(), NoMemory>
    requires { w < length ends.old }
    ensures { OnOk result (IsLowering level (w ∷ []) ends.old ends.new queue.old.items queue.new.items) }
{
    let count = ends.as_slice()[w as usize];
    if count <= level {
        return Ok(());
    }
    ends.set(w as usize, count - 1);
    if count - 1 > level {
        return Ok(());
    }
    queue.push(w)?;
    Ok(())
}
