//! Changes from rows.
//!
//! [`read_changes`] reads a file of rows with `csv`: no header, comma, double quote, rows of any length, no trimming; a byte
//! order mark is dropped and an empty line is no row. A row is one change:
//!
//! | row | change |
//! |---|---|
//! | `iv,TABLE,KEY,` values | insert a vertex |
//! | `dv,TABLE,KEY` | delete a vertex |
//! | `ie,TABLE,KEY,SOURCE,DESTINATION,` values | insert an edge |
//! | `de,TABLE,KEY` | delete an edge |
//! | `sv,TABLE,KEY,PROP,VALUE` | set a vertex's property |
//! | `se,TABLE,KEY,PROP,VALUE` | set an edge's property |
//!
//! There is a value for each property of the table, in order. Keys are LONG and not NULL, and an empty value is NULL. The first
//! row with a fault decides, and of it the first [`RowCause`].
//!
//! `specs/Row.antt` says what one row stands for, `specs/Changes.antt` what a file does, and `specs/Law.antt` the same in words
//! that speak of no order of work.
#![tactic(auto)]

mod changes;
mod fault;
mod fields;
mod laws;
mod row;
mod setting;
mod verb;

pub use changes::read_changes;
pub use fault::{FeedFault, RowCause};
pub use laws::{files_write_lists, row_faults_are_first, rows_write_changes};
