//! Strong components of a graph, and ranks of its vertices.
//!
//! [`strong_components`] gives for each vertex the least index of the vertices of its strong component: those to which and from which
//! walks lead. It is one search, depth first, on one thread. The vertices that it has met and that have no label yet are a path of
//! blocks, and an edge back joins blocks; a block that no edge leaves any more is a component. Each edge is looked at twice at most: when
//! it is put on the stack of tasks, and when it is taken off. That stack takes the place of recursion, so long paths need no deep stack.
//!
//! [`rank`] gives for each vertex its rank after a number of rounds. In a round each vertex adds up what the edges that enter it hand on,
//! and the vertices are shared out among the workers. What the edges of a vertex hand on is divided once for all of them.
//!
//! The values do not depend on the number of workers. No clause speaks of time, and no test, and it was not measured yet.
//!
//! What ranks are stands in `specs/Ranks.antt`, and what strong labels are in `specs/Classes.antt`, by walks as `algo_digraph` has them.
//! The functions of `laws.rt` say what these definitions mean: what their clauses say holds, and they do nothing.
#![tactic(auto)]

mod blocks;
mod laws;
mod rounds;
mod search;
mod snapshot;
mod strong;

pub use laws::{ranks_share_the_whole, strong_labels_tell_components};
pub use snapshot::{rank, strong_components};
