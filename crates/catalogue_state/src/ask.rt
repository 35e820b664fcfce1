//! What is asked of the catalogue.
use changeset::ChangeList;
use column_types::Text;
use graph_mutate::Mutation;

/// A call as plain data.
#[derive(Clone, Debug, Drop)]
pub enum Ask {
    /// Opens a session of the caller.
    OpenSession,
    /// Closes the caller's session, with all that it holds.
    CloseSession,
    /// How many changes of a source are to be seen.
    Peek {
        source: Text,
    },
    /// A private graph: the source's opening graph with its first `front` changes applied.
    Place {
        name: Text,
        source: Text,
        front: u64,
    },
    /// A private graph made from one that the session holds.
    Derive {
        name: Text,
        base: Text,
        how: How,
    },
    /// Publishes a graph that the session holds for itself, under the name `line`; the session then holds it as a pin. `keep` tells how
    /// many of its last snapshots are kept, and `threshold` how many changes it may fall behind its source.
    Publish {
        name: Text,
        line: Text,
        keep: u32,
        threshold: u64,
    },
    /// Takes back a graph that the caller has published. Pins of it stay.
    Unpublish {
        line: Text,
    },
    /// A pin of the latest snapshot of a published graph.
    Get {
        line: Text,
        name: Text,
    },
    /// Moves a pin to another snapshot of its published graph.
    Checkout {
        name: Text,
        target: Target,
    },
    /// A snapshot more of a published graph: that of a pin with these changes applied. The pin stays as it is.
    Append {
        name: Text,
        changes: ChangeList,
    },
    /// Gives up a graph of the session.
    Release {
        name: Text,
    },
    /// The numbers of all columns that are in use.
    Columns,
    /// All published graphs.
    Lines,
}

/// Which snapshot of a published graph.
#[derive(Clone, Debug, Drop, PartialEq, Eq)]
pub enum Target {
    /// The one with this id.
    Sid(u64),
    /// The one that came last.
    Latest,
}

/// How a graph is derived from another.
#[derive(Clone, Debug, Drop)]
pub enum How {
    /// By a change of the whole graph.
    Mutate(Mutation),
    /// By these changes, one after the other.
    Changes(ChangeList),
}
