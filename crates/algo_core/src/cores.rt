//! Core numbers, level by level.
ghost use Rattle.std.specs.Prelude.{◌≡◌, ◌≢◌, ℕ, ◌+◌, ◌<◌, ◌≤◌, true, IfOk, OnOk, Contains, Some, None, ◌^◌, filter, nat_le, length, slice_index, replicate};
ghost use Rattle.std.specs.List.{range_with_len};
ghost use Rattle.algo_digraph.specs.Arcs.{out_arcs, in_arcs};
ghost use Rattle.algo_digraph.specs.Cores.{IsCoreNumber};
ghost use Rattle.algo_core.specs.Peeling.{core_of, is_left, IsPeeling, IsNumbering};

use crate::peel::peel_queue;
use algo_digraph::{FlatDigraph, Marks};
use column_types::{List, NoMemory};
use par_rounds::round;
use std::alloc::Global;
use std::thread::Threads;

/// For each vertex its core number in a digraph.
pub(crate) fn digraph_core_numbers<R: Threads + Sync>(
    rt: &R,
    alloc: Global,
    digraph: &FlatDigraph<'_>,
    workers: u32,
) -> Result<List<u64>, NoMemory>
    requires workers { (1 ≤ workers) × (workers ≤ 64) }
    ensures len { IfOk result (λ cores. length cores ≡ digraph.now.vertices) }
    ensures each { IfOk result (λ cores. (v : ℕ) → v < digraph.now.vertices → IsCoreNumber digraph.now v (slice_index cores v)) }
{
    let n = digraph.vertex_count();
    let mut cores = Marks::none(alloc, n)?;
    let mut ends = all_ends(rt, alloc, digraph, workers)?;
    let mut left = all_vertices(alloc, n)?;
    let mut level = 0u32;
    'levels: while !left.is_empty() {
        level = level.max(fewest_ends(ends.as_slice(), left.as_slice()));
        peel_level(
            rt,
            alloc,
            digraph,
            &mut cores,
            &mut ends,
            left.as_slice(),
            level,
            workers,
        )?;
        left = still_left(alloc, &cores, left.as_slice())?;
    }
    let all = cores.to_numbers(alloc)?;
    Ok(all)
}

/// Gives their number to the vertices that are left with at most `level` edge ends, and to those that come down to it.
fn peel_level<R: Threads + Sync>(
    rt: &R,
    alloc: Global,
    digraph: &FlatDigraph<'_>,
    cores: &mut Marks,
    ends: &mut List<u32>,
    left: &[u32],
    level: u32,
    workers: u32,
) -> Result<(), NoMemory>
    requires peeling { IsPeeling digraph.now level cores.old ends.old }
    requires level { level < 2 ^ 31 }
    requires left { (v : ℕ) → Contains left.now v → v < digraph.now.vertices }
    requires has { (v : ℕ) → is_left cores.old v ≡ true → Contains left.now v }
    requires workers { (1 ≤ workers) × (workers ≤ 64) }
    ensures peeling { OnOk result (IsPeeling digraph.now level cores.new ends.new) }
    ensures kept { OnOk result ((v k : ℕ) → core_of cores.old v ≡ Some k → core_of cores.new v ≡ Some k) }
    ensures gone { OnOk result ((v : ℕ) → Contains left.now v → slice_index ends.old v ≤ level → core_of cores.new v ≢ None) }
{
    let queue = with_few_ends(alloc, ends.as_slice(), left, level)?;
    if queue.len() == left.len() {
        peel_rest(digraph, cores, ends.as_slice(), queue.as_slice(), level);
        return Ok(());
    }
    peel_queue(rt, alloc, digraph, cores, ends, queue, level, workers)
}

/// Gives all vertices that are left their number, where all of them are queued. Their edge ends are counted no more.
fn peel_rest(digraph: &FlatDigraph<'_>, cores: &mut Marks, ends: &[u32], queue: &[u32], level: u32)
    requires peeling { IsPeeling digraph.now level cores.old ends.now }
    requires level { level < 2 ^ 31 }
    requires queued { (v : ℕ) → Contains queue.now v → (v < digraph.now.vertices) × (slice_index ends.now v ≤ level) }
    requires all { (v : ℕ) → is_left cores.old v ≡ true → Contains queue.now v }
    ensures peeling { IsPeeling digraph.now level cores.new ends.now }
    ensures kept { (v k : ℕ) → core_of cores.old v ≡ Some k → core_of cores.new v ≡ Some k }
    ensures gone { (v : ℕ) → Contains queue.now v → core_of cores.new v ≢ None }
{
    let _ = digraph.vertex_count();
    let _ = ends.len();
    number_all(cores, queue, level);
}

/// Gives all vertices of a queue that have no number this one.
fn number_all(cores: &mut Marks, queue: &[u32], level: u32)
    requires level { level < 2 ^ 31 }
    requires within { (v : ℕ) → Contains queue.now v → v < length cores.old }
    ensures { IsNumbering (Contains queue.now) level cores.old cores.new }
{
    for v in queue {
        number_vertex(cores, *v, level);
    }
}

fn number_vertex(cores: &mut Marks, v: u32, level: u32)
    requires level { level < 2 ^ 31 }
    requires vertex { v < length cores.old }
    ensures { IsNumbering (λ w. w ≡ v) level cores.old cores.new }
{
    if !cores.is_free(v) {
        return;
    }
    cores.set(v, level);
}

/// For each vertex the number of its edge ends, read off the lengths of its rows.
fn all_ends<R: Threads + Sync>(
    rt: &R,
    alloc: Global,
    digraph: &FlatDigraph<'_>,
    workers: u32,
) -> Result<List<u32>, NoMemory>
    requires workers { (1 ≤ workers) × (workers ≤ 64) }
    ensures len { IfOk result (λ ends. length ends ≡ digraph.now.vertices) }
    ensures each { IfOk result (λ ends. (v : ℕ) → v < digraph.now.vertices
        → slice_index ends v ≡ length (out_arcs digraph.now v) + length (in_arcs digraph.now v)) }
{
    round(
        rt,
        alloc,
        workers,
        digraph.vertex_count(),
        |v: u32| -> u32
            ensures { result ≡ length (out_arcs digraph.entry.now v) + length (in_arcs digraph.entry.now v) }
        { digraph.out_degree(v) + digraph.in_degree(v) },
    )
}

fn all_vertices(alloc: Global, n: u32) -> Result<List<u32>, NoMemory>
    ensures { IfOk result (λ all. all ≡ range_with_len 0 n) }
{
    let mut all = List::new(alloc);
    for v in 0..n {
        all.push(v)?;
    }
    Ok(all)
}

/// The fewest edge ends of a vertex that is left.
fn fewest_ends(ends: &[u32], left: &[u32]) -> u32
    requires some { 0 < length left.now }
    requires within { (v : ℕ) → Contains left.now v → v < length ends.now }
    ensures least { (v : ℕ) → Contains left.now v → result ≤ slice_index ends.now v }
    ensures some { (v : ℕ) × Contains left.now v × (slice_index ends.now v ≡ result) }
{
    let mut fewest = ends[left[0] as usize];
    for v in left {
        fewest = fewest.min(ends[*v as usize]);
    }
    fewest
}

/// The vertices of a list that have at most `level` edge ends.
fn with_few_ends(
    alloc: Global,
    ends: &[u32],
    left: &[u32],
    level: u32,
) -> Result<Vec<u32>, NoMemory>
    requires { (v : ℕ) → Contains left.now v → v < length ends.now }
    ensures { IfOk result (λ few. few.items ≡ filter (λ v. nat_le (slice_index ends.now v) level) left.now) }
{
    let mut few = Vec::new(alloc);
    for v in left {
        if ends[*v as usize] <= level {
            few.push(*v)?;
        }
    }
    Ok(few)
}

/// The vertices of a list that have no number.
fn still_left(alloc: Global, cores: &Marks, left: &[u32]) -> Result<List<u32>, NoMemory>
    requires { (v : ℕ) → Contains left.now v → v < length cores.now }
    ensures { IfOk result (λ still. still ≡ filter (is_left cores.now) left.now) }
{
    let mut still = List::new(alloc);
    for v in left {
        if cores.is_free(*v) {
            still.push(*v)?;
        }
    }
    Ok(still)
}
