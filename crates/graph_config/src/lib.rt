//! Configurations: which tables a graph source has, and in which files they stand.
//!
//! [`read_config`] reads the bytes of a configuration file as JSON, as `serde_json` does: of two equal keys the last counts,
//! and fields that this page does not name are passed over.
//!
//! | object | field | value |
//! |---|---|---|
//! | the whole | `version` | optional, the number 1 or 2, without fraction or exponent: where it is 2, keys differ within each table, else over all tables |
//! | | `vertex_providers`, `edge_providers` | lists of tables, at most 32 in both together |
//! | table | `name` | a name |
//! | | `file` | a file name: 1 to 255 ASCII letters, digits, `_`, `.`, `-` and `/` |
//! | | `props` | optional list of at most 64 properties, empty where it is missing |
//! | edge table | `source_vertex_provider`, `destination_vertex_provider` | the name of a vertex table |
//! | property | `name` | a name |
//! | | `type` | `integer`, `long`, `boolean`, `string` or `local_date` |
//!
//! A fault has the number of its refusal and a path such as `vertex_providers[0].props[1].type`; the whole is `$`. The first
//! in this order is answered: 3 (no JSON, without a path); on a walk through the whole, in the order of the table above
//! with `props` last in a table, 4 (a field is missing), 5 (a value is not allowed) and 52 (a list is too long, found before
//! its items); after the walk 6 (a name repeats: of tables over both lists, then of properties within each table), 7 (an end
//! names no vertex table) and 50 (a property's name has another kind in an earlier table of its list).
//!
//! A [`Config`] is seen as its schema and the list of its file names. `specs/Walk.antt` has the walk, `specs/Check.antt` what
//! is looked for after it, and `specs/Config.antt` the whole. In words that speak of no walk, `specs/Document.antt` says which
//! configuration a JSON value states ([`accepted_configurations`]), `specs/Form.antt` which form it is to have, where it has a
//! fault, and which fault is the first, and `specs/Locates.antt` what an error tells ([`the_first_fault`]).
#![tactic(auto)]

mod config;
mod ends;
mod fault;
mod field;
mod laws;
mod names;
mod path;
mod tables;
mod walk;

pub use config::{Config, read_config};
pub use fault::ConfigFault;
pub use laws::{accepted_configurations, the_first_fault};
