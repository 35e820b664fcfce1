//! Labels of weakly connected components: trees of vertices that edges join.
ghost use Rattle.std.specs.Prelude.{◌≡◌, ℕ, ◌<◌, ◌≤◌, IfOk, length, slice_index, slice_set};
ghost use Rattle.algo_digraph.specs.Digraph.{Digraph, Goes};
ghost use Rattle.algo_digraph.specs.Walks.{AreConnected, IsLabel};
ghost use Rattle.algo_reach.specs.Forest.{IsForest, HasForest, IsJoining};

use algo_digraph::FlatDigraph;
use column_types::{List, NoMemory};
use std::alloc::Global;

/// For each vertex the least index of the vertices that are connected to it.
pub(crate) fn forest_components(
    alloc: Global,
    digraph: &FlatDigraph<'_>,
) -> Result<List<u64>, NoMemory>
    ensures len { IfOk result (λ labels. length labels ≡ digraph.now.vertices) }
    ensures each { IfOk result (λ labels. (v : ℕ) → v < digraph.now.vertices → IsLabel digraph.now v (slice_index labels v)) }
{
    let parents = joined_parents(alloc, digraph)?;
    let labels = root_labels(alloc, parents.as_slice())?;
    Ok(labels)
}

/// Trees such that an edge joins vertices of one tree only.
fn joined_parents(alloc: Global, digraph: &FlatDigraph<'_>) -> Result<List<u32>, NoMemory>
    ensures { IfOk result (λ parents. (root : ℕ → ℕ) × IsForest digraph.now parents root
        × ((e u w : ℕ) → Goes digraph.now e u w → root u ≡ root w)) }
{
    let n = digraph.vertex_count();
    let mut parents = own_parents(alloc, n)?;
    for v in 0..n {
        join_targets(digraph, &mut parents, v);
    }
    Ok(parents)
}

/// Each vertex alone in a tree.
fn own_parents(alloc: Global, n: u32) -> Result<List<u32>, NoMemory>
    ensures len { IfOk result (λ parents. length parents ≡ n) }
    ensures own { IfOk result (λ parents. (v : ℕ) → v < n → slice_index parents v ≡ v) }
{
    let mut parents = List::from_vec(Vec::with_capacity(alloc, n as usize)?);
    for v in 0..n {
        parents.push(v)?;
    }
    Ok(parents)
}

/// Makes one tree of that of a vertex and those of the vertices where its edges end.
fn join_targets(digraph: &FlatDigraph<'_>, parents: &mut List<u32>, v: u32)
    requires vertex { v < digraph.now.vertices }
    requires forest { HasForest digraph.now parents.old }
    ensures { IsJoining digraph.now (λ u w. (u ≡ v) × ((e : ℕ) × Goes digraph.now e v w)) parents.old parents.new }
{
    for arc in digraph.out_arcs(v) {
        join(parents, v, arc.vertex);
    }
}

/// Makes one tree of those of two vertices: the greater root goes under the smaller.
fn join(parents: &mut List<u32>, a: u32, b: u32)
    requires first { a < length parents.old }
    requires second { b < length parents.old }
    requires falls { (u : ℕ) → slice_index parents.old u ≤ u }
    ensures { (g : Digraph) → AreConnected g a b → IsJoining g (λ u w. (u ≡ a) × (w ≡ b)) parents.old parents.new }
{
    let x = root_of(parents, a);
    let y = root_of(parents, b);
    link(parents, x, y);
}

/// Puts the greater of two roots under the smaller.
fn link(parents: &mut List<u32>, x: u32, y: u32)
    requires first { x < length parents.old }
    requires second { y < length parents.old }
    ensures rises { x < y → parents.new ≡ slice_set parents.old y x }
    ensures falls { y < x → parents.new ≡ slice_set parents.old x y }
    ensures same { x ≡ y → parents.new ≡ parents.old }
{
    if x < y {
        parents.set(y as usize, x);
    }
    if y < x {
        parents.set(x as usize, y);
    }
}

/// The root of a vertex. The way up gets shorter.
fn root_of(parents: &mut List<u32>, v: u32) -> u32
    requires vertex { v < length parents.old }
    requires falls { (u : ℕ) → slice_index parents.old u ≤ u }
    ensures forest { (g : Digraph) (root : ℕ → ℕ) → IsForest g parents.old root → IsForest g parents.new root × (result ≡ root v) }
    ensures falls { (u : ℕ) → slice_index parents.new u ≤ u }
    ensures long { length parents.new ≡ length parents.old }
    ensures least { result ≤ v }
{
    let mut at = v;
    'up: while parents.as_slice()[at as usize] != at {
        at = go_up(parents, at);
    }
    at
}

/// Goes to the grandparent of a vertex, which becomes its parent.
fn go_up(parents: &mut List<u32>, at: u32) -> u32
    requires vertex { at < length parents.old }
    requires falls { (u : ℕ) → slice_index parents.old u ≤ u }
    ensures forest { (g : Digraph) (root : ℕ → ℕ) → IsForest g parents.old root → IsForest g parents.new root × (root result ≡ root at) }
    ensures falls { (u : ℕ) → slice_index parents.new u ≤ u }
    ensures long { length parents.new ≡ length parents.old }
    ensures up { result ≤ slice_index parents.old at }
{
    let up = parents.as_slice()[at as usize];
    let above = parents.as_slice()[up as usize];
    parents.set(at as usize, above);
    above
}

/// The roots of all vertices. The root of a vertex's parent is there before its own.
fn root_labels(alloc: Global, parents: &[u32]) -> Result<List<u64>, NoMemory>
    requires falls { (u : ℕ) → slice_index parents.now u ≤ u }
    ensures len { IfOk result (λ labels. length labels ≡ length parents.now) }
    ensures each { IfOk result (λ labels. (g : Digraph) (root : ℕ → ℕ) → IsForest g parents.now root
        → (v : ℕ) → v < length parents.now → slice_index labels v ≡ root v) }
{
    let mut labels = List::from_vec(Vec::with_capacity(alloc, parents.len())?);
    for v in 0..parents.len() {
        let label = label_of(labels.as_slice(), parents, v);
        labels.push(label)?;
    }
    Ok(labels)
}

/// The root of a vertex: itself, or that of its parent.
fn label_of(labels: &[u64], parents: &[u32], v: usize) -> u64
    requires vertex { v < length parents.now }
    requires labels { length labels.now ≡ v }
    requires falls { slice_index parents.now v ≤ v }
    ensures own { slice_index parents.now v ≡ v → result ≡ v }
    ensures up { slice_index parents.now v < v → result ≡ slice_index labels.now (slice_index parents.now v) }
{
    let up = parents[v] as usize;
    if up == v {
        return v as u64;
    }
    labels[up]
}
