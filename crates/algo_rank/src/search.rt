//! A search that finds strong components.
//!
//! It goes depth first. The vertices that it has met and that have no label yet are its path, which is cut into blocks: walks lead
//! from each vertex of the path to all later ones, and within a block to all others. An edge to an earlier block joins the blocks from
//! there on. When the first vertex of the last block is left, no edge leads out of the block but to vertices with labels: the block is
//! a strong component. What is left to do lies on a stack of tasks, so a long path needs no deep recursion.
ghost use Rattle.std.specs.Prelude.{◌≡◌, ◌≢◌, ℕ, ◌<◌, ◌++◌, [], IfOk, OnOk, map, replicate};
ghost use Rattle.algo_digraph.specs.Arcs.{out_arcs};
ghost use Rattle.algo_rank.specs.declared.search.Stage.TheVariants.{Unseen};
ghost use Rattle.algo_rank.specs.declared.search.Task.TheVariants.{Follow, Leave};
ghost use Rattle.algo_rank.specs.Search.{stage_of, IsSearch, IsTaken, IsGoing, IsOnward};

use crate::blocks::{close_block, ends_with, join_blocks};
use algo_digraph::FlatDigraph;
use column_types::{List, NoMemory};
use std::alloc::Global;

/// How far a search has come with a vertex: it was not met, it lies at a place of the path, or it has its label.
#[derive(Clone, Copy, Debug, PartialEq, Eq)]
pub(crate) enum Stage {
    Unseen,
    Open(u32),
    Closed(u32),
}

/// What is left to do: to follow an edge to a vertex, or to leave the vertex at a place of the path. The edges of a vertex lie above
/// the task to leave it, so the next edge comes from the vertex that is left next.
#[derive(Clone, Copy, Debug, PartialEq, Eq)]
pub(crate) enum Task {
    Follow(u32),
    Leave(u32),
}

/// A search: how far it has come with each vertex, the vertices on its path, the places where the blocks of the path begin, and
/// the tasks, the next one last.
#[derive(Drop)]
pub(crate) struct Search {
    pub(crate) stages: List<Stage>,
    pub(crate) path: Vec<u32>,
    pub(crate) heads: Vec<u32>,
    tasks: Vec<Task>,
}

impl Search {
    /// A search that has met none of `n` vertices.
    pub(crate) fn new(alloc: Global, n: u32) -> Result<Search, NoMemory>
        ensures stages { IfOk result (λ search. search.stages ≡ replicate n Unseen) }
        ensures path { IfOk result (λ search. search.path.items ≡ []) }
        ensures heads { IfOk result (λ search. search.heads.items ≡ []) }
        ensures tasks { IfOk result (λ search. search.tasks.items ≡ []) }
    {
        let stages = vec![in alloc; Stage::Unseen; n as usize]?;
        Ok(Search {
            stages: List::from_vec(stages),
            path: Vec::new(alloc),
            heads: Vec::new(alloc),
            tasks: Vec::new(alloc),
        })
    }
}

/// Meets the vertices that walks lead to from a vertex, and gives each its label. A search with no task left has none afterwards.
pub(crate) fn search_from(
    digraph: &FlatDigraph<'_>,
    search: &mut Search,
    v: u32,
) -> Result<(), NoMemory>
    requires vertex { v < digraph.now.vertices }
    requires search { IsSearch digraph.now search.old }
    requires tasks { search.old.tasks.items ≡ [] }
    ensures search { OnOk result (IsSearch digraph.now search.new) }
    ensures tasks { OnOk result (search.new.tasks.items ≡ []) }
    ensures kept { OnOk result ((u : ℕ) → stage_of search.old.stages u ≢ Unseen → stage_of search.new.stages u ≢ Unseen) }
    ensures met { OnOk result (stage_of search.new.stages v ≢ Unseen) }
{
    go_to(digraph, search, v)?;
    'tasks: while let Some(task) = search.tasks.pop() {
        do_task(digraph, search, task)?;
    }
    Ok(())
}

/// Does a task that was taken off.
fn do_task(digraph: &FlatDigraph<'_>, search: &mut Search, task: Task) -> Result<(), NoMemory>
    requires { IsTaken digraph.now search.old task }
    ensures search { OnOk result (IsSearch digraph.now search.new) }
    ensures onward { OnOk result (IsOnward digraph.now search.old search.new) }
{
    digraph.sound();
    match task {
        Task::Follow(to) => go_to(digraph, search, to),
        Task::Leave(place) => {
            leave(digraph, search, place);
            Ok(())
        }
    }
}

/// Goes to a vertex: one that was not met is met, and one on the path joins the blocks from its own on.
fn go_to(digraph: &FlatDigraph<'_>, search: &mut Search, to: u32) -> Result<(), NoMemory>
    requires vertex { to < digraph.now.vertices }
    requires search { IsGoing digraph.now search.old to }
    ensures search { OnOk result (IsSearch digraph.now search.new) }
    ensures onward { OnOk result (IsOnward digraph.now search.old search.new) }
    ensures met { OnOk result (stage_of search.new.stages to ≢ Unseen) }
{
    let stage = search.stages.as_slice()[to as usize];
    match stage {
        Stage::Unseen => meet(digraph, search, to),
        Stage::Open(place) => {
            join_blocks(&mut search.heads, place);
            Ok(())
        }
        Stage::Closed(_) => Ok(()),
    }
}

/// Meets a vertex: it becomes the last of the path, a block of its own, and its edges are to be followed.
fn meet(digraph: &FlatDigraph<'_>, search: &mut Search, v: u32) -> Result<(), NoMemory>
    requires vertex { v < digraph.now.vertices }
    requires search { IsGoing digraph.now search.old v }
    requires new { stage_of search.old.stages v ≡ Unseen }
    ensures search { OnOk result (IsSearch digraph.now search.new) }
    ensures onward { OnOk result (IsOnward digraph.now search.old search.new) }
    ensures met { OnOk result (stage_of search.new.stages v ≢ Unseen) }
{
    let _ = digraph.vertex_count();
    let place = search.path.len() as u32;
    search.stages.set(v as usize, Stage::Open(place));
    search.path.push(v)?;
    search.heads.push(place)?;
    search.tasks.push(Task::Leave(place))?;
    add_edges(digraph, &mut search.tasks, v)
}

/// Adds a task for each edge that leaves a vertex.
fn add_edges(digraph: &FlatDigraph<'_>, tasks: &mut Vec<Task>, v: u32) -> Result<(), NoMemory>
    ensures { OnOk result (tasks.new.items ≡ tasks.old.items ++ map (λ a. Follow a.vertex) (out_arcs digraph.now v)) }
{
    for arc in digraph.out_arcs(v) {
        tasks.push(Task::Follow(arc.vertex))?;
    }
    Ok(())
}

/// Leaves the vertex at a place of the path. Where the last block begins with it, its vertices get their label.
fn leave(digraph: &FlatDigraph<'_>, search: &mut Search, place: u32)
    requires { IsTaken digraph.now search.old (Leave place) }
    ensures search { IsSearch digraph.now search.new }
    ensures onward { IsOnward digraph.now search.old search.new }
{
    digraph.sound();
    if ends_with(search.heads.as_slice(), place) {
        close_block(
            &mut search.stages,
            &mut search.path,
            &mut search.heads,
            place,
        );
    }
}
