//! The snapshot that a list of changes makes of another one, its base.
//!
//! A snapshot keeps its graph in *slots*, with one *part* in each: the keys of a table, the values of a property, the places
//! where the edges of a table start, or those where they end, and the edges that leave each vertex, or those that enter it.
//! [`fold`] makes the changes one after the other. A change that does not fit the graph as it is by then is skipped and counted.
//! A change that fits marks the slots that it touches:
//!
//! ```text
//! set the age of vertex 1       the slot of the ages
//! insert a vertex               all slots of its table
//! delete a vertex               all slots of its table; where the edges of a table start there, the places of their starts and
//!                               the edges that leave each vertex; where they end there, the places of their ends and the
//!                               edges that enter each vertex
//! insert or delete an edge      all slots of its table
//! ```
//!
//! In the end a marked slot gets a new part, and every other slot shares the part of the base. A shared part is not copied, and
//! where it holds the keys of a table, their index is shared, too. A step is counted for each row of each new part, and none
//! for a shared one.
//!
//! The changes are made in a plain graph, which is copied from the base: its time is that of the whole graph, and counts no steps.
//!
//! `folded` of specs/Folded says which graph the snapshot holds, and `kept_slots` which parts are the base's; `new_steps` of
//! specs/Steps says how many steps are counted. The laws of these definitions are the functions of `laws.rt`: what their clauses
//! say holds, and they do nothing.
//!
//! The files in the order to read them: `folding` and `laws`, then `marks`, `applied`, and `slots` with `parts` under it.
#![tactic(auto)]

mod applied;
mod folding;
mod laws;
mod marks;
mod parts;
mod slots;

pub use folding::fold;
pub use laws::{changes_that_fit_are_not_skipped, folds_are_last_prefixes, untouched_slots_stay};
