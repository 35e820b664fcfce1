//! Graphs of vertices and edges in tables, and their changes.
//!
//! * A [`Graph`] is seen as its schema, for each vertex table the list of its rows, and for each edge table the list of its
//!   rows. Its type keeps that the rows fit the schema, that keys differ as the schema says, that each edge ends at vertices
//!   that exist, and the limits.
//! * A [`Change`] inserts, deletes or sets. [`Graph::apply`] makes it, or tells the first cause, a [`Why`], for which it does
//!   not fit; the graph is then as before.
//!
//! Behind the view a table is held in columns: a list of keys, a column for each property, and an index of the keys. A row is
//! put in a *seat*, the place where it came. It never moves: where it is taken out the seat stays, flagged as dead, and the
//! rows of a table are those of its other seats in order. So a set and a delete cost one look-up and no walk, and an edge
//! keeps the seats of its ends, which are looked up once. For each vertex seat it is counted how many ends of edges stand there,
//! so that a vertex is deleted without a walk over the edges. Under `Keys::Whole` a new key is looked for in each table.
#![tactic(auto)]

mod cells;
mod change;
mod columns;
mod copies;
mod counts;
mod ends;
mod from_rows;
mod graph;
mod laws;
mod parts;
mod places;
mod row;
mod table;
mod tables;

pub use change::{ApplyFault, Change, Why};
pub use columns::{EdgeColumns, GraphColumns, VertexColumns};
pub use graph::Graph;
pub use graph_schema::{
    EdgeTable, Keys, Prop, Schema, SchemaFault, VertexTable, all_named, ends_exist, is_name,
};
pub use laws::{
    changes_are_made_in_turn, ends_are_those_of_edges, graphs_stay_graphs, keys_name_rows,
};
pub use row::{EdgeRow, VertexRow};
