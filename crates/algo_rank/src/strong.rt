//! Strong labels.
ghost use Rattle.std.specs.Prelude.{◌≡◌, ℕ, ◌<◌, IfOk, length, slice_index, slice_index_or};
ghost use Rattle.algo_rank.specs.Classes.{IsStrongLabel};
ghost use Rattle.algo_rank.specs.declared.search.Stage.TheVariants.{Unseen, Closed};
ghost use Rattle.algo_rank.specs.Search.{stage_of};

use crate::search::{Search, Stage, search_from};
use algo_digraph::FlatDigraph;
use column_types::{List, NoMemory};
use std::alloc::Global;

/// For each vertex its strong label.
pub(crate) fn digraph_strong_labels(
    alloc: Global,
    digraph: &FlatDigraph<'_>,
) -> Result<List<u64>, NoMemory>
    ensures len { IfOk result (λ labels. length labels ≡ digraph.now.vertices) }
    ensures each { IfOk result (λ labels. (v : ℕ) → v < digraph.now.vertices → IsStrongLabel digraph.now v (slice_index labels v)) }
{
    let n = digraph.vertex_count();
    let mut search = Search::new(alloc, n)?;
    for v in 0..n {
        search_from(digraph, &mut search, v)?;
    }
    let labels = labels_in(alloc, search.stages.as_slice())?;
    Ok(labels)
}

/// The labels of vertices that all have one.
fn labels_in(alloc: Global, stages: &[Stage]) -> Result<List<u64>, NoMemory>
    requires { (v : ℕ) → v < length stages.now → (l : ℕ) × (stage_of stages.now v ≡ Closed l) }
    ensures len { IfOk result (λ labels. length labels ≡ length stages.now) }
    ensures each { IfOk result (λ labels. (v l : ℕ) → stage_of stages.now v ≡ Closed l → slice_index labels v ≡ l) }
{
    let mut labels = List::from_vec(Vec::with_capacity(alloc, stages.len())?);
    for stage in stages {
        labels.push(label_of(*stage))?;
    }
    Ok(labels)
}

fn label_of(stage: Stage) -> u64
    requires { (l : ℕ) × (stage ≡ Closed l) }
    ensures { stage ≡ Closed result }
{
    match stage {
        Stage::Closed(label) => u64::from(label),
        Stage::Unseen | Stage::Open(_) => unreachable!(),
    }
}
