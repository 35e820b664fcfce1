//! Changes of whole graphs, and why they are refused.
ghost use Rattle.std.specs.Prelude.{◌≡◌};

use column_types::NoMemory;
use thiserror::Error;

/// What a graph is changed to, as a whole.
#[derive(Clone, Copy, Debug, PartialEq, Eq)]
pub enum Mutation {
    /// The graph itself.
    Clone,
    /// Each edge with its ends swapped, and each edge table with its end tables swapped.
    Transpose,
    /// For each edge that is no loop a reverse edge, behind the edges of its table.
    Undirect,
    /// No loops, and in each edge table the first edge alone of each pair of ends.
    Simplify,
    /// The vertices of each table by falling degree, those of one degree in their old order.
    SortByDegree,
}

/// Why there is no changed graph.
#[derive(Clone, Copy, Debug, PartialEq, Eq, Error)]
pub enum MutateFault {
    /// The first edge table, by its place, that starts and ends in two vertex tables. It has no reverse edges.
    #[error("edge table {0} starts and ends in two vertex tables")]
    MixedEnds(u32),
    /// The keys after the greatest edge key are too few for the reverse edges.
    #[error("no keys are left for the reverse edges")]
    KeysSpent,
    /// The graph would have more edges or values than a graph may have.
    #[error("too many edges or values")]
    TooBig,
    #[error("out of memory")]
    NoMemory,
}

impl From<NoMemory> for MutateFault {
    ghost use Rattle.graph_mutate.specs.declared.mutation.MutateFault.TheVariants.{NoMemory};

    ghost from_gives = { λ _ fault. fault ≡ NoMemory };

    fn from(_error: NoMemory) -> MutateFault {
        MutateFault::NoMemory
    }
}
