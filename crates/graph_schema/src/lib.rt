//! Which tables a graph has.
//!
//! A [`Schema`] is seen as the list of its vertex tables, the list of its edge tables, and its [`Keys`], which say whether keys
//! differ over the whole graph or within each table. Its type keeps what every schema
//! keeps: at most 32 tables of at most 64 properties, names that are names and differ, one kind for all properties of one
//! name, and edge tables that end in vertex tables that exist. [`Schema::new`] makes it of two lists of tables, or tells
//! the number and path of their first fault. [`is_name`] tells which texts are names.
//!
//! `specs/Fault.antt` lists all faults in the order in which they are answered, and `specs/Law.antt` says in other words
//! what tables without a fault are. The functions of `laws` prove that both say the same.
#![tactic(auto)]

mod condition;
mod fault;
mod faults;
mod laws;
mod location;
mod name;
mod schema;

pub use condition::{all_named, ends_exist};
pub use fault::SchemaFault;
pub use laws::{faultless_tables_make_a_schema, schemas_have_faultless_tables};
pub use name::is_name;
pub use schema::{EdgeTable, Keys, Prop, Schema, VertexTable};
