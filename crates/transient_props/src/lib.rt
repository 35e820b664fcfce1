//! Transient properties: columns under names that no vertex table has.
//!
//! A transient property is no part of a graph, and takes no name from its vertex tables. [`Transients`] is a map from names to
//! columns. Contracts see it as the list of its entries, in the order of the names' bytes, and speak of it by `column_of`, the
//! column of a name:
//!
//! ```text
//! add        gives a name its column; refused where a vertex table of the schema or the map has the name
//! drop_prop  takes a name out; refused where the map does not have it
//! ```
//!
//! At every other name the map answers as before, and after a refusal it is as before. A column may have any number of rows: the
//! callers know how many vertices there are.
//!
//! These words are in `specs/Transients.antt`. [`look_ups_determine_maps`] proves that maps with the same look-ups are the same
//! list. There are few transient properties, so a name is looked for from the first on.
#![tactic(auto)]

mod fault;
mod laws;
mod pairs;
mod places;
mod transients;

pub use fault::{NoProp, TransientFault};
pub use laws::look_ups_determine_maps;
pub use transients::Transients;
