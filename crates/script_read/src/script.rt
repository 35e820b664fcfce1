//! Scripts as data.
use column_types::{List, Text};

/// A script that has been read. Contracts see it as these lists.
#[derive(Debug, Drop, PartialEq, Eq)]
pub struct Script {
    /// The sources in order.
    pub sources: List<SourceText>,
    /// The actors in order of first mention: actor 1, actor 2 and so on.
    pub actors: List<Text>,
    /// The phases in order, each the blocks of its actors in order.
    pub phases: List<List<Block>>,
}

/// A source under its name.
#[derive(Debug, Drop, PartialEq, Eq)]
pub struct SourceText {
    pub name: Text,
    pub form: SourceForm,
}

/// Where a source's records stand.
#[derive(Debug, Drop, PartialEq, Eq)]
pub enum SourceForm {
    /// In the script: the key of each `v` line, and the key, source and destination of each `e` line.
    Inline {
        vertices: List<i64>,
        edges: List<(i64, i64, i64)>,
    },
    /// In the files that the configuration in this file names, and of a file of changes, where there is one. No script has
    /// one yet.
    Files {
        config: Text,
        changes: Option<Text>,
    },
}

/// What one actor does in one phase.
#[derive(Debug, Drop, PartialEq, Eq)]
pub struct Block {
    /// The actor's number, from 1.
    pub actor: u32,
    pub commands: List<Command>,
}

/// A command.
#[derive(Clone, Debug, Drop, PartialEq, Eq)]
pub struct Command {
    /// The line, without spaces at its start and a carriage return at its end.
    pub line: Text,
    pub form: Form,
}

/// What a command asks, with its variable words in order. A line is a graph that is published under a name.
#[derive(Clone, Debug, Drop, PartialEq, Eq)]
pub enum Form {
    /// Open the session.
    Open,
    /// Close the session.
    Close,
    /// List the columns that can be reached.
    Columns,
    /// List the lines of published graphs.
    Lines,
    /// Load a graph under the first name from the source of the second.
    Load(Text, Text),
    /// Clone under the first name the session graph of the second.
    Clone(Text, Text),
    /// Make under the first name the session graph of the second with each edge turned round.
    Transpose(Text, Text),
    /// Make under the first name the session graph of the second with a twin, turned round, of each edge that is no loop.
    Undirect(Text, Text),
    /// Make under the first name the session graph of the second without loops, and with only the first of the edges of a table
    /// from one vertex to another.
    Simplify(Text, Text),
    /// Make under the first name the session graph of the second with the vertices of each table by falling degree.
    SortByDegree(Text, Text),
    /// Make under the first name the session graph of the second after the open list of changes.
    Build(Text, Text),
    /// Give the line of the session graph of this name its next snapshot, by the open list of changes.
    Snapshot(Text),
    /// Publish the session graph of the first name as the line of the second, which keeps so many snapshots, 1 to 64, and has
    /// this threshold, from 1 to the greatest LONG.
    Publish(Text, Text, u32, u64),
    /// Unpublish the line of this name.
    Unpublish(Text),
    /// Get under the first name the latest snapshot of the line of the second.
    Get(Text, Text),
    /// Check the session graph of this name out at the snapshot of this id, from 1 to the greatest LONG.
    CheckoutSid(Text, u64),
    /// Check the session graph of this name out at its line's latest snapshot.
    CheckoutLatest(Text),
    /// Release the session graph of this name.
    Release(Text),
    /// Show the source of this name.
    Show(Text),
    /// Show the rows of the session graph of this name.
    Rows(Text),
    /// Add the change that the second text writes to the open list of changes, by the tables of the session graph of the first
    /// name. The text is the rest of the line, and not empty.
    Change(Text, Text),
    /// Empty the open list of changes.
    Discard,
}
