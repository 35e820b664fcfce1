//! Many vertices go at once, by several threads.
ghost use Rattle.std.specs.Prelude.{◌≡◌, ◌≢◌, ◌↔◌, ℕ, ◌+◌, ◌*◌, ◌^◌, ◌<◌, ◌≤◌, ◌++◌, IsTrue, IfOk, OnOk, All, Contains, Some, None, Vec, filter, flat_map, length, map, sum, slice_index, IsOk};
ghost use Rattle.algo_digraph.specs.Arcs.{out_arcs, in_arcs};
ghost use Rattle.algo_core.specs.Peeling.{core_of, falling, found_in, is_above, IsPeeling, IsLowering, IsNumbering, AreNumbered};

use crate::peel::lower_end;
use algo_digraph::{FlatDigraph, Marks};
use column_types::{List, NoMemory};
use std::alloc::Global;
use std::thread::{Threads, map_chunks};

/// So many queued vertices are worth several threads.
const WAVE: usize = 4_096;

/// The neighbors that a thread found, or that it had no memory to list them.
type Found = Result<List<u32>, NoMemory>;

/// Whether all queued vertices go at once: where there are several workers and at least 4,096 of the vertices.
pub(crate) fn is_wave(workers: u32, queued: usize) -> bool
    ensures { IsTrue result ↔ ((1 < workers) × (4096 ≤ queued)) }
{
    workers > 1 && queued >= WAVE
}

/// Gives all vertices of a queue their number. Then the counts of their neighbors fall, and those that come down to the level are
/// the next queue. The neighbors are looked up by several threads, and counted off by this one.
pub(crate) fn peel_wave<R: Threads + Sync>(
    rt: &R,
    alloc: Global,
    digraph: &FlatDigraph<'_>,
    cores: &mut Marks,
    ends: &mut List<u32>,
    queue: &[u32],
    level: u32,
    workers: u32,
) -> Result<Vec<u32>, NoMemory>
    requires peeling { IsPeeling digraph.now level cores.old ends.old }
    requires level { level < 2 ^ 31 }
    requires queued { (v : ℕ) → Contains queue.now v → (v < digraph.now.vertices) × (slice_index ends.old v ≤ level) }
    requires workers { (1 ≤ workers) × (workers ≤ 64) }
    ensures peeling { OnOk result (IsPeeling digraph.now level cores.new ends.new) }
    ensures kept { OnOk result ((v k : ℕ) → core_of cores.old v ≡ Some k → core_of cores.new v ≡ Some k) }
    ensures gone { OnOk result ((v : ℕ) → Contains queue.now v → core_of cores.new v ≢ None) }
    ensures next { IfOk result (λ next. (w : ℕ) → Contains next.items w → (w < digraph.now.vertices) × (slice_index ends.new w ≤ level)) }
    ensures work { IfOk result (λ next. 2 * sum ends.new + length next.items ≤ 2 * sum ends.old) }
{
    let wave = number_in_turn(alloc, cores, queue, level)?;
    let found = find_falling(
        rt,
        alloc,
        digraph,
        ends.as_slice(),
        wave.as_slice(),
        level,
        workers,
    )?;
    let mut next = Vec::new(alloc);
    lower_found(ends, &mut next, found.as_slice(), level)?;
    Ok(next)
}

/// Gives the vertices of a queue that have no number this one. The list has each of these once.
fn number_in_turn(
    alloc: Global,
    cores: &mut Marks,
    queue: &[u32],
    level: u32,
) -> Result<List<u32>, NoMemory>
    requires level { level < 2 ^ 31 }
    requires within { (v : ℕ) → Contains queue.now v → v < length cores.old }
    ensures turns { IfOk result (λ wave. AreNumbered level cores.old wave cores.new) }
    ensures numbering { OnOk result (IsNumbering (Contains queue.now) level cores.old cores.new) }
{
    let mut wave = List::new(alloc);
    for v in queue {
        if !cores.is_free(*v) {
            continue;
        }
        cores.set(*v, level);
        wave.push(*v)?;
    }
    Ok(wave)
}

/// The neighbors of the vertices of a wave whose counts are above the level, by a thread for each part of the wave.
fn find_falling<R: Threads + Sync>(
    rt: &R,
    alloc: Global,
    digraph: &FlatDigraph<'_>,
    ends: &[u32],
    wave: &[u32],
    level: u32,
    workers: u32,
) -> Result<Vec<Found>, NoMemory>
    requires ends { length ends.now ≡ digraph.now.vertices }
    requires workers { (1 ≤ workers) × (workers ≤ 64) }
    ensures within { IfOk result (λ found. All (λ r. All (λ w. w < digraph.now.vertices) (found_in r)) found.items) }
    ensures falling { IfOk result (λ found. All IsOk found.items → flat_map found_in found.items ≡ falling digraph.now ends.now level wave.now) }
{
    let _ = digraph.vertex_count();
    let size = wave.len().div_ceil(workers as usize).max(1);
    let found = map_chunks(
        rt,
        alloc,
        wave,
        size,
        &|_: usize, part: &[u32]| -> Found
            requires { length ends.now ≡ digraph.now.vertices }
            ensures { IfOk result (λ list. list ≡ falling digraph.entry.now ends.entry.now level part.entry.now) }
        { list_falling(alloc, digraph, ends, part, level) },
    )?;
    Ok(found)
}

/// The neighbors of the vertices of a part of a wave whose counts are above the level.
fn list_falling(
    alloc: Global,
    digraph: &FlatDigraph<'_>,
    ends: &[u32],
    part: &[u32],
    level: u32,
) -> Result<List<u32>, NoMemory>
    requires { length ends.now ≡ digraph.now.vertices }
    ensures { IfOk result (λ list. list ≡ falling digraph.now ends.now level part.now) }
{
    let mut list = List::new(alloc);
    for v in part {
        add_targets(digraph, ends, &mut list, *v, level)?;
        add_sources(digraph, ends, &mut list, *v, level)?;
    }
    Ok(list)
}

/// Adds the targets of `v` whose counts are above the level.
fn add_targets(
    digraph: &FlatDigraph<'_>,
    ends: &[u32],
    list: &mut List<u32>,
    v: u32,
    level: u32,
) -> Result<(), NoMemory>
    requires { length ends.now ≡ digraph.now.vertices }
    ensures { OnOk result (list.new ≡ list.old ++ filter (is_above ends.now level) (map (λ a. a.vertex) (out_arcs digraph.now v))) }
{
    for arc in digraph.out_arcs(v) {
        if ends[arc.vertex as usize] > level {
            list.push(arc.vertex)?;
        }
    }
    Ok(())
}

/// Adds the sources of `v` whose counts are above the level.
fn add_sources(
    digraph: &FlatDigraph<'_>,
    ends: &[u32],
    list: &mut List<u32>,
    v: u32,
    level: u32,
) -> Result<(), NoMemory>
    requires { length ends.now ≡ digraph.now.vertices }
    ensures { OnOk result (list.new ≡ list.old ++ filter (is_above ends.now level) (map (λ a. a.vertex) (in_arcs digraph.now v))) }
{
    for arc in digraph.in_arcs(v) {
        if ends[arc.vertex as usize] > level {
            list.push(arc.vertex)?;
        }
    }
    Ok(())
}

/// Counts off an edge end of a vertex for each time that it was found.
fn lower_found(
    ends: &mut List<u32>,
    queue: &mut Vec<u32>,
    found: &[Found],
    level: u32,
) -> Result<(), NoMemory>
    requires { All (λ r. All (λ w. w < length ends.old) (found_in r)) found.now }
    ensures found { OnOk result (All IsOk found.now) }
    ensures lowering { OnOk result (IsLowering level (flat_map found_in found.now) ends.old ends.new queue.old.items queue.new.items) }
{
    for one in found {
        match one {
            Ok(list) => lower_each(ends, queue, list.as_slice(), level)?,
            Err(error) => return Err(*error),
        }
    }
    Ok(())
}

/// Counts off an edge end of a vertex for each time that it is listed.
fn lower_each(
    ends: &mut List<u32>,
    queue: &mut Vec<u32>,
    listed: &[u32],
    level: u32,
) -> Result<(), NoMemory>
    requires { All (λ w. w < length ends.old) listed.now }
    ensures { OnOk result (IsLowering level listed.now ends.old ends.new queue.old.items queue.new.items) }
{
    for w in listed {
        lower_end(ends, queue, *w, level)?;
    }
    Ok(())
}
