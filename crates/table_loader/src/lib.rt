//! Graphs from table files, and from the lines of inline sources.
//!
//! [`read_tables`] reads the files of a configuration: first those of its vertex tables, then those of its edge tables. A file is
//! read with `csv`: no header, comma, double quote, records of any length, no trimming; a byte order mark is dropped and an
//! empty line is no record. A vertex record is a key and a value for each property in order; an edge record is a key, the keys
//! of its source and of its destination, and its values. Keys are LONG and not NULL, and an empty field of a property is NULL.
//!
//! The first record with a fault decides, and within it the first fault of this order:
//!
//! | number | fault of the record |
//! |---|---|
//! | 9 | the number of fields is not that of the table |
//! | 8 | a field is not UTF-8 |
//! | 10 | a field is no value of its kind |
//! | 11 | the key is taken by an earlier vertex, or edge: of any table where keys differ over the whole graph, else of the same table |
//! | 12 | an end is no key of its end table |
//! | 13 | the record passes a limit of vertices, edges or cells |
//!
//! [`read_inline`] does the same with records that are numbers already. Its graph has the vertex table `V` and the edge table
//! `E` from V to V, without properties; only 11, 12 and 13 can occur.
//!
//! `specs/Record.antt` says what one record stands for, `specs/Put.antt` how records are put into a graph one after another,
//! `specs/Tables.antt` and `specs/Inline.antt` what files and lines stand for, and `specs/Law.antt` the same in words that
//! speak of no order of work.
#![tactic(auto)]

mod fault;
mod inline;
mod laws;
mod put;
mod record;
mod tables;

pub use fault::LoadFault;
pub use inline::read_inline;
pub use laws::{
    inline_faults_are_first, inline_lines_stand_for_a_graph, rows_have_three_causes,
    table_faults_are_first, tables_stand_for_a_graph,
};
pub use tables::read_tables;
