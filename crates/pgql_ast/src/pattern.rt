//! Patterns of a graph.

use column_types::{List, Text};

/// `MATCH` with a path, and the graph's name after `ON`.
#[derive(Clone, Debug, Drop, PartialEq, Eq)]
pub struct Match {
    pub first: Element,
    pub steps: List<PathStep>,
    pub graph: Option<Label>,
}

/// One step of a path: an edge and the vertex on its right.
#[derive(Clone, Debug, Drop, PartialEq, Eq)]
pub struct PathStep {
    pub way: Way,
    pub edge: Element,
    pub vertex: Element,
}

/// A vertex or edge pattern. Its place is the byte of its `(`, or of its first `-` or `<`; without labels each label fits.
#[derive(Clone, Debug, Drop, PartialEq, Eq)]
pub struct Element {
    pub place: u32,
    pub name: Option<Text>,
    pub labels: List<Label>,
}

/// A name and its first byte.
#[derive(Clone, Debug, Drop, PartialEq, Eq)]
pub struct Label {
    pub name: Text,
    pub place: u32,
}

/// Where an edge pattern points.
#[derive(Clone, Copy, Debug, PartialEq, Eq)]
pub enum Way {
    /// `->`: from the vertex on its left to that on its right.
    Right,
    /// `<-`: from the vertex on its right to that on its left.
    Left,
    /// `-`: one of both.
    Either,
}
