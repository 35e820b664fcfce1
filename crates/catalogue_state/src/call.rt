//! A call with all that the caller hands over, and what is handed out for it.
use crate::{Ask, Refusal, Snap, SourceData};
use column_types::Shared;
use graph_snap::Built;

/// A call with what the caller made for it beforehand.
#[derive(Drop)]
pub struct Call {
    pub ask: Ask,
    pub made: Made,
}

/// What a caller builds before its call, so that no column and no row is made in a turn.
#[derive(Drop)]
pub enum Made {
    /// The graph that is asked for, built from the one that the caller holds.
    Ready(Built),
    /// Why there is no such graph.
    Refused(Refusal),
    /// Nothing: the call builds no graph, or the caller does not hold the one to build it from.
    Missing,
}

/// What is handed out beside a reply.
#[derive(Drop)]
pub enum Gift {
    Nothing,
    /// The source that was asked about.
    Source(Shared<SourceData>),
    /// The snapshot that the session now holds under the name.
    Snap(Shared<Snap>),
}
