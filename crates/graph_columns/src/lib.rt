//! The parts of a graph, and the indexes of its keys.
//!
//! A graph is kept in parts, one for each slot of its schema in slot order: a column for the keys of each table, for each
//! property, and for where edges start and end, and row lists both ways. [`all_parts`] makes them of a graph's columns, which
//! are moved. One part alone is made by [`key_part`], [`prop_part`], [`place_part`] or [`row_part`]. Each counts a step for
//! each row of its slot's table, and the steps of all slots together are those of [`all_parts`].
//!
//! * A row is named by its position: a [`VertexAt`] or an [`EdgeAt`], the place of its table and its place in that table.
//! * A [`TableIndex`] is seen as the keys of one table in order. [`TableIndex::find`] answers where a key stands, by hash. It
//!   shares the column of the keys and copies none.
//! * [`GraphParts`] are the parts in slot order, with the index of each vertex table and of each edge table.
#![tactic(auto)]

mod column;
mod graph_parts;
mod laws;
mod parts;
mod position;
mod table_index;
mod table_parts;

pub use column::key_slice;
pub use graph_parts::{GraphParts, all_parts};
pub use laws::{columns_hold_slots, rows_stand_at_their_keys, slots_take_all_steps};
pub use parts::{key_part, place_part, prop_part, row_part};
pub use position::{EdgeAt, VertexAt};
pub use table_index::TableIndex;
