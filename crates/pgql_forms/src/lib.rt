//! The forms of the trees that texts spell.
//!
//! This crate has a definition and laws, and no work of its own. `IsWellFormed` of specs/WellFormed says what may be counted on
//! in the tree of a query, besides its types: that each operator stands in the node of its own rule, that no list of operands
//! is too short, and that numbers and dates lie in their ranges. The law [`what_is_spelled_is_well_formed`] says that the tree
//! of each text is such a tree, so whoever works on trees may require it, and what the parser answers meets it.
#![tactic(auto)]

mod laws;

pub use laws::{what_is_parsed_is_well_formed, what_is_spelled_is_well_formed};
