//! Ranks, round by round.
ghost use Rattle.std.specs.Prelude.{◌≡◌, ℕ, ◌+◌, ◌*◌, ◌/◌, ◌<◌, ◌≤◌, IfOk, length, replicate, slice_index, sum_by};
ghost use Rattle.algo_digraph.specs.Digraph.{leaving};
ghost use Rattle.algo_digraph.specs.Arcs.{in_arcs};
ghost use Rattle.algo_rank.specs.Ranks.{share_of, next_rank, AreRanks};

use algo_digraph::FlatDigraph;
use column_types::{List, NoMemory};
use par_rounds::round;
use std::alloc::Global;
use std::thread::Threads;

/// All ranks together, in the units that ranks are counted in.
const WHOLE: u64 = 4_294_967_296;

/// For each vertex its rank after so many rounds.
pub(crate) fn digraph_rank<R: Threads + Sync>(
    rt: &R,
    alloc: Global,
    digraph: &FlatDigraph<'_>,
    rounds: u32,
    workers: u32,
) -> Result<List<u64>, NoMemory>
    requires workers { (1 ≤ workers) × (workers ≤ 64) }
    ensures { IfOk result (λ ranks. AreRanks digraph.now rounds ranks) }
{
    let n = digraph.vertex_count();
    if n == 0 {
        return Ok(List::new(alloc));
    }
    let degrees = out_degrees(rt, alloc, digraph, workers)?;
    let mut ranks = equal_ranks(alloc, n)?;
    for _round in 0..rounds {
        ranks = next_ranks(
            rt,
            alloc,
            digraph,
            degrees.as_slice(),
            ranks.as_slice(),
            workers,
        )?;
    }
    Ok(ranks)
}

/// For each vertex the number of edges that leave it, read off the lengths of its rows.
fn out_degrees<R: Threads + Sync>(
    rt: &R,
    alloc: Global,
    digraph: &FlatDigraph<'_>,
    workers: u32,
) -> Result<List<u32>, NoMemory>
    requires workers { (1 ≤ workers) × (workers ≤ 64) }
    ensures len { IfOk result (λ degrees. length degrees ≡ digraph.now.vertices) }
    ensures each { IfOk result (λ degrees. (u : ℕ) → u < digraph.now.vertices → slice_index degrees u ≡ length (leaving digraph.now u)) }
    ensures few { IfOk result (λ degrees. (u : ℕ) → u < digraph.now.vertices → slice_index degrees u ≤ 4194304) }
{
    round(
        rt,
        alloc,
        workers,
        digraph.vertex_count(),
        |u: u32| -> u32
            ensures { (result ≡ length (leaving digraph.entry.now u)) × (result ≤ 4194304) }
        { digraph.out_degree(u) },
    )
}

/// The ranks of `n` vertices before the first round.
fn equal_ranks(alloc: Global, n: u32) -> Result<List<u64>, NoMemory>
    requires { 0 < n }
    ensures { IfOk result (λ ranks. ranks ≡ replicate n (4294967296 / n)) }
{
    let ranks = vec![in alloc; WHOLE / u64::from(n); n as usize]?;
    Ok(List::from_vec(ranks))
}

/// The ranks of all vertices in the next round. Each vertex takes what the edges that enter it hand on.
fn next_ranks<R: Threads + Sync>(
    rt: &R,
    alloc: Global,
    digraph: &FlatDigraph<'_>,
    degrees: &[u32],
    ranks: &[u64],
    workers: u32,
) -> Result<List<u64>, NoMemory>
    requires some { 0 < digraph.now.vertices }
    requires degrees { length degrees.now ≡ digraph.now.vertices }
    requires each { (u : ℕ) → u < digraph.now.vertices → slice_index degrees.now u ≡ length (leaving digraph.now u) }
    requires few { (u : ℕ) → u < digraph.now.vertices → slice_index degrees.now u ≤ 4194304 }
    requires ranks { length ranks.now ≡ digraph.now.vertices }
    requires low { (u : ℕ) → u < digraph.now.vertices → slice_index ranks.now u ≤ 4294967296 }
    requires workers { (1 ≤ workers) × (workers ≤ 64) }
    ensures len { IfOk result (λ next. length next ≡ digraph.now.vertices) }
    ensures each { IfOk result (λ next. (v : ℕ) → v < digraph.now.vertices → slice_index next v ≡ next_rank digraph.now (slice_index ranks.now) v) }
{
    let n = digraph.vertex_count();
    let shares = all_shares(rt, alloc, n, degrees, ranks, workers)?;
    let shares = shares.as_slice();
    let own = 15 * WHOLE / (100 * u64::from(n));
    let next = round(
        rt,
        alloc,
        workers,
        n,
        |v: u32| -> u64
            requires { (v < digraph.now.vertices) × (length shares.now ≡ digraph.now.vertices) × (own ≤ 4294967296) }
            ensures { result ≡ own + sum_by (λ a. slice_index shares.entry.now a.vertex) (in_arcs digraph.entry.now v) }
        { own + handed_on(digraph, shares, v) },
    )?;
    Ok(next)
}

/// For each vertex what each edge that leaves it hands on.
fn all_shares<R: Threads + Sync>(
    rt: &R,
    alloc: Global,
    n: u32,
    degrees: &[u32],
    ranks: &[u64],
    workers: u32,
) -> Result<List<u32>, NoMemory>
    requires degrees { length degrees.now ≡ n }
    requires few { (u : ℕ) → u < n → slice_index degrees.now u ≤ 4194304 }
    requires ranks { length ranks.now ≡ n }
    requires low { (u : ℕ) → u < n → slice_index ranks.now u ≤ 4294967296 }
    requires workers { (1 ≤ workers) × (workers ≤ 64) }
    ensures len { IfOk result (λ shares. length shares ≡ n) }
    ensures each { IfOk result (λ shares. (u : ℕ) → u < n → 0 < slice_index degrees.now u
        → slice_index shares u ≡ 85 * slice_index ranks.now u / (100 * slice_index degrees.now u)) }
{
    round(
        rt,
        alloc,
        workers,
        n,
        |u: u32| -> u32
            requires { (u < length degrees.now) × (u < length ranks.now) × (slice_index degrees.now u ≤ 4194304) × (slice_index ranks.now u ≤ 4294967296) }
            ensures { 0 < slice_index degrees.entry.now u → result ≡ 85 * slice_index ranks.entry.now u / (100 * slice_index degrees.entry.now u) }
        { share(ranks[u as usize], degrees[u as usize]) },
    )
}

/// What each of `degree` edges hands on of a rank. No edge hands on anything where there is none.
fn share(rank: u64, degree: u32) -> u32
    requires rank { rank ≤ 4294967296 }
    requires degree { degree ≤ 4194304 }
    ensures { 0 < degree → result ≡ 85 * rank / (100 * degree) }
{
    if degree == 0 {
        return 0;
    }
    (85 * rank / (100 * u64::from(degree))) as u32
}

/// What the edges that enter a vertex hand on to it.
fn handed_on(digraph: &FlatDigraph<'_>, shares: &[u32], v: u32) -> u64
    requires { length shares.now ≡ digraph.now.vertices }
    ensures sum { result ≡ sum_by (λ a. slice_index shares.now a.vertex) (in_arcs digraph.now v) }
    ensures few { result ≤ 4194304 * 4294967296 }
{
    let _ = digraph.vertex_count();
    let mut sum = 0;
    for arc in digraph.in_arcs(v) {
        sum += u64::from(shares[arc.vertex as usize]);
    }
    sum
}
