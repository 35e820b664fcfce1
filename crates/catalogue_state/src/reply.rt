//! What the catalogue replies.
use change_feed::RowCause;
use column_types::{List, Text};
use graph_model::Why;

/// The reply to a call.
#[derive(Clone, Debug, Drop, PartialEq, Eq)]
pub enum Reply {
    Done,
    /// How many changes of the source are to be seen.
    Front(u64),
    /// The id of the snapshot that the session now holds under the name.
    Sid(u64),
    /// Column numbers in rising order.
    Columns(List<u64>),
    /// The published graphs in the order in which they were published.
    Lines(List<LineInfo>),
    Refused(Refusal),
}

/// What is told of a published graph: the number of its owner, its source if it has one, its retention count, how far it may fall
/// behind its source, and of each of its snapshots the id and the front, oldest first.
#[derive(Clone, Debug, Drop, PartialEq, Eq)]
pub struct LineInfo {
    pub name: Text,
    pub owner: u32,
    pub source: Option<Text>,
    pub keep: u32,
    pub threshold: u64,
    pub snaps: List<(u64, u64)>,
}

/// Why a call was refused, with the values that tell it. Each has a number that the journal prints.
#[derive(Clone, Debug, Drop, PartialEq, Eq)]
pub enum Refusal {
    /// 2: the undirected graph would have more edges or values than a graph may have.
    TooBig,
    /// 14: the row of this number, counted from 1, writes no change, for this cause.
    BadRow(u64, RowCause),
    /// 15: the change at this place, counted from 1, is the first that does not fit, for this cause.
    BadChange(u32, Why),
    /// 16: the edge table of this name is the first that starts and ends in two vertex tables, so its edges have no reverse edges.
    MixedEnds(Text),
    /// 17: the keys after the greatest edge key are too few for the reverse edges.
    KeysSpent,
    /// 18: 64 sessions are open.
    SessionsFull,
    /// 19: no source has this name.
    NoSource(Text),
    /// 21: the session holds a graph of this name.
    NameTaken(Text),
    /// 22: the session holds 256 graphs.
    GraphsFull,
    /// 23: the session holds no graph of this name.
    NoName(Text),
    /// 24: the session holds the graph of this name as a pin, not for itself.
    NotPrivate(Text),
    /// 25: a published graph has this name.
    LineTaken(Text),
    /// 26: 256 graphs are published.
    LinesFull,
    /// 27: no published graph has this name.
    NoLine(Text),
    /// 28: another caller owns the published graph of this name.
    NotOwner(Text),
    /// 29: the published graph has no snapshot of this id.
    NoSnapshot(u64),
    /// 30: the published graph of this name has a source, from which alone its snapshots come.
    Sourced(Text),
    /// 31: the pin is not at the latest snapshot of its published graph, which has this id.
    NotLatest(u64),
    /// 32: only so many changes of the source are to be seen.
    NotVisible(u64),
    /// 33: the session holds the graph of this name for itself, not as a pin.
    NotPinned(Text),
    /// 48: the caller has no open session.
    NotOpen,
    /// 49: the caller has an open session.
    AlreadyOpen,
}
