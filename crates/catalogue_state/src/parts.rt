//! What the catalogue keeps, as contracts see it too.
use column_types::{List, Shared, Text};
use graph_model::Change;
use graph_snap::Snapshot;

/// A source of graphs as it was opened: its first graph, and the changes that come after it, in order.
#[derive(Drop)]
pub struct SourceData {
    pub name: Text,
    pub opening: Snapshot,
    pub changes: List<Change>,
}

/// A snapshot with its id `sid`, how many changes of its source it has applied, and for each slot of its schema the number of
/// the column that it has there.
#[derive(Drop)]
pub struct Snap {
    pub sid: u64,
    pub front: u64,
    pub shot: Snapshot,
    pub columns: List<u64>,
}

/// A source, and how many of its changes are to be seen.
#[derive(Drop)]
pub struct Source {
    pub data: Shared<SourceData>,
    pub visible: u64,
}

/// A published graph: its owner, its source if it has one, its retention count, how far it may fall behind its source, and its
/// last snapshots, oldest first.
#[derive(Drop)]
pub struct Line {
    pub name: Text,
    pub owner: u32,
    pub source: Option<Text>,
    pub keep: u32,
    pub threshold: u64,
    pub snaps: List<Shared<Snap>>,
}

/// How a session holds a graph.
#[derive(Drop)]
pub enum Hold {
    /// For itself, with the name of the source that it was placed from.
    Private(Option<Text>),
    /// As a snapshot of the published graph of this name.
    Pin(Text),
}

/// A graph that a session holds under a name.
#[derive(Drop)]
pub struct Held {
    pub name: Text,
    pub hold: Hold,
    pub snap: Shared<Snap>,
}

/// An open session: whose it is, and the graphs that it holds, in order.
#[derive(Drop)]
pub struct Session {
    pub who: u32,
    pub held: List<Held>,
}
