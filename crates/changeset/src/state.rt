//! What is told of a vertex and of an edge.

/// Whether a vertex is there, and how many ends of edges stand at it.
#[derive(Clone, Copy, Debug)]
pub(crate) struct VertexState {
    pub there: bool,
    pub ends: u32,
}

/// The keys of the vertices where an edge starts and ends, if it is there.
#[derive(Clone, Copy, Debug)]
pub(crate) enum EdgeState {
    Gone,
    There { source: i64, destination: i64 },
}
