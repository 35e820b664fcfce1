//! Graphs that are changed as a whole: transposed, made undirected, made simple, or with their vertices ordered by degree.
//!
//! [`mutate`] makes the snapshot of the changed graph from a snapshot, its base. It works on the base's columns and rows: what
//! does not change is shared and not copied, and its keys are not hashed again. `mutated` of specs/Mutated says which graph it
//! is, `kept_slots` which parts are the base's, and `fault_of` when and why the graph is refused. The laws of these
//! definitions are the functions of `laws.rt`: what their clauses say holds, and they do nothing.
#![tactic(auto)]

mod degrees;
mod derived;
mod edge_lists;
mod edge_slots;
mod laws;
mod making;
mod mutation;
mod names;
mod schema;
mod simplify;
mod sorting;
mod tables;
mod undirect;

pub use laws::{
    no_slot_is_kept_twice, simplified_graphs_are_simple, sorted_graphs_are_sorted,
    transposed_graphs_are_graphs, undirected_graphs_have_reverse_edges,
};
pub use making::mutate;
pub use mutation::{MutateFault, Mutation};
