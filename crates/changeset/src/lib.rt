//! Lists of changes, and whether they fit a snapshot.
//!
//! A [`ChangeList`] is seen as the list of its changes. [`ChangeList::fits`] judges each change on the graph after those before
//! it, and answers the first that does not fit, with its place from 1 and the cause. The law [`first_misfits_are_first`] says
//! what its definition means.
//!
//! No graph is made to find this out. Whether a change fits can be told from few facts: which keys a table has, where an edge
//! starts and ends, how many ends of edges stand at a vertex, and how many vertices, edges and values there are. These are
//! the `facts` of specs/Facts. The law [`facts_tell_misfits`] says that they tell of each change whether it fits, and
//! [`facts_follow_changes`] that a change that fits makes new facts of them, for which the rest of the graph is not needed.
//!
//! An `Overlay` keeps the facts that changed and asks the snapshot for all others:
//!
//! * a vertex or an edge that a change touched is found in a map by its table and key: whether it is there now, with the number
//!   of ends that stand at the vertex, or with the ends of the edge;
//! * any other key is looked up in the snapshot's own index, and the ends at a vertex are counted by the lengths of its rows;
//! * the three numbers are kept as they are now.
//!
//! So a list of n changes takes n steps and room for what they touch, however large the snapshot is. A step looks in each
//! table at most, of which there are 32 of each sort.
//!
//! ```text
//! snapshot: vertices 1, 2; edge 7 from 1 to 2       ends at 1: 1    ends at 2: 1
//! delete edge 7                                     edge 7: gone    ends at 1: 0    ends at 2: 0
//! delete vertex 1                                   fits, since no end stands at it; before the first change it would not
//! ```
//!
//! The files in the order to read them: `list` and `laws`, then specs/Facts with `facts`, then `overlay` with `base` under it,
//! then `misfits` (whether a change fits) and `notes` (what one that fits changes).
#![tactic(auto)]

mod base;
mod facts;
mod laws;
mod list;
mod misfits;
mod notes;
mod overlay;
mod state;

pub use facts::{facts_follow_changes, facts_tell_misfits};
pub use laws::first_misfits_are_first;
pub use list::{ChangeList, FitFault};
